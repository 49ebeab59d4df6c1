//! The status of a server for browsers and for Prometheus: a page that draws it, its JSON, and its metrics.
//!
//! ```text
//! let text = metrics_text(rt.alloc(), status)?; // for Prometheus
//! holds(rt, text.as_str().contains("ftpd_lanes 16\n"));
//! let mut reader = b"GET /status.json HTTP/1.1\r\nHost: localhost\r\n\r\n".as_slice();
//! let mut writer = Vec::new(rt.alloc());
//! let keys = RandomState::new(rt)?;
//! let date = HttpDate::from_unix_secs(951_827_696).expect(rt, "a date"); // seconds since 1970
//! serve_request(rt.alloc(), keys, status, date, &mut reader, &mut writer)?; // of a browser
//! holds(rt, writer.as_slice().starts_with(b"HTTP/1.1 200 OK\r\n"));
//! ```
#![tactic(auto)]

mod escapes;
mod hosts;
mod limits;
mod metrics;
mod page;
mod promises;
mod routes;
mod rows;
mod samples;
mod serving;
mod timing;
mod users;

pub use metrics::metrics_text;
pub use page::{PAGE, POLICY};
pub use serving::serve_request;
pub use timing::{MachineClock, MicrosClock, Timed};
