//! The answers, by path and method.

ghost use Rattle.std.specs.Prelude.{◌≡◌, ◌++◌, ◌∷◌, [], IfOk, OnOk, codes};
ghost use Rattle.http_header.specs.FieldValue.{plain_value};
ghost use Rattle.httpdate.specs.Date.{date_text};
ghost use Rattle.http_server.specs.Response.{IsBlank, IsResponse};
ghost use Rattle.status_page.specs.Answers.{Answers, IsShown, IsTyped, fields_with, is_read, route_of, shown_at};

use crate::hosts::is_own_request;
use crate::metrics::metrics_text;
use crate::page::{PAGE, POLICY};
use bytes::{BufMut, Bytes};
use http::{HeaderName, HeaderValue, Method, Request, StatusCode};
use http_server::{Response, Service};
use httpdate::HttpDate;
use server_status::{Status, status_text};
use std::alloc::{AllocError, Global};

/// A thing that can be asked for.
#[derive(Clone, Copy, Debug, PartialEq, Eq)]
pub(crate) enum Route {
    /// The page.
    Page,
    /// The status as JSON.
    Json,
    /// The status as metrics.
    Metrics,
}

fn route_of(path: &str) -> Option<Route>
    ensures route { result ≡ route_of path.now }
{
    match path {
        "/" => Some(Route::Page),
        "/status.json" => Some(Route::Json),
        "/metrics" => Some(Route::Metrics),
        _ => None,
    }
}

/// The date of an answer, and the allocator of its fields.
#[derive(Clone, Copy)]
pub(crate) struct Moment {
    pub(crate) alloc: Global,
    pub(crate) date: HttpDate,
}

fn is_read(method: &Method) -> bool
    ensures read { result ≡ is_read method.now }
{
    matches!(method.as_str(), "GET" | "HEAD")
}

/// The field with a date.
fn date_value(alloc: Global, date: HttpDate) -> Result<HeaderValue, AllocError>
    ensures date { IfOk result (λ value. value ≡ plain_value (date_text date)) }
{
    match HeaderValue::from_bytes(alloc, &date.to_bytes()) {
        Ok(value) => Ok(value),
        Err(_) => Err(AllocError),
    }
}

/// Fills a response at a date, with the fields that each has. The connection closes after it.
fn fill(
    moment: Moment,
    response: &mut Response,
    status: StatusCode,
    kind: HeaderValue,
    octets: &[u8],
) -> Result<(), AllocError>
    requires blank { IsBlank response.old }
    ensures filled { OnOk result
        (IsTyped moment.date status kind.bytes octets.now response.new) }
{
    let close = HeaderValue::from_static("close");
    let no_store = HeaderValue::from_static("no-store");
    let no_sniff = HeaderValue::from_static("nosniff");
    let policy = HeaderValue::from_static(POLICY);
    let own = HeaderValue::from_static("same-origin");
    let date = date_value(moment.alloc, moment.date)?;
    response.add_header(HeaderName::from_static("connection"), close)?;
    response.add_header(HeaderName::from_static("date"), date)?;
    response.add_header(HeaderName::from_static("cache-control"), no_store)?;
    response.add_header(HeaderName::from_static("x-content-type-options"), no_sniff)?;
    response.add_header(HeaderName::from_static("content-security-policy"), policy)?;
    response.add_header(HeaderName::from_static("cross-origin-resource-policy"), own)?;
    response.add_header(HeaderName::from_static("content-type"), kind)?;
    response.status = status;
    response.body.put_slice(octets)
}

fn show_json(moment: Moment, status: &Status, response: &mut Response) -> Result<(), AllocError>
    requires blank { IsBlank response.old }
    ensures shown { OnOk result
        (IsShown (shown_at status.now moment.date) Route.Json response.new) }
{
    let text = status_text(moment.alloc, status)?;
    let kind = HeaderValue::from_static("application/json");
    fill(moment, response, StatusCode::OK, kind, text.as_bytes())
}

fn show_metrics(moment: Moment, status: &Status, response: &mut Response) -> Result<(), AllocError>
    requires blank { IsBlank response.old }
    ensures shown { OnOk result
        (IsShown (shown_at status.now moment.date) Route.Metrics response.new) }
{
    let text = metrics_text(moment.alloc, status)?;
    let kind = HeaderValue::from_static("text/plain; version=0.0.4; charset=utf-8");
    fill(moment, response, StatusCode::OK, kind, text.as_bytes())
}

fn show(
    moment: Moment,
    status: &Status,
    route: Route,
    response: &mut Response,
) -> Result<(), AllocError>
    requires blank { IsBlank response.old }
    ensures shown { OnOk result (IsShown (shown_at status.now moment.date) route response.new) }
{
    match route {
        Route::Page => {
            let kind = HeaderValue::from_static("text/html; charset=utf-8");
            fill(moment, response, StatusCode::OK, kind, PAGE.as_bytes())
        }
        Route::Json => show_json(moment, status, response),
        Route::Metrics => show_metrics(moment, status, response),
    }
}

fn not_found(moment: Moment, response: &mut Response) -> Result<(), AllocError>
    requires blank { IsBlank response.old }
    ensures filled { OnOk result
        (IsTyped moment.date 404 (codes "text/plain; charset=utf-8") (codes "not found\n") response.new) }
{
    let kind = HeaderValue::from_static("text/plain; charset=utf-8");
    fill(
        moment,
        response,
        StatusCode::NOT_FOUND,
        kind,
        b"not found\n",
    )
}

fn not_allowed(moment: Moment, response: &mut Response) -> Result<(), AllocError>
    requires blank { IsBlank response.old }
    ensures filled { OnOk result (IsResponse 405
        (fields_with moment.date (codes "text/plain; charset=utf-8") ++ (codes "allow", codes "GET, HEAD") ∷ [])
        (codes "method not allowed\n") response.new) }
{
    let kind = HeaderValue::from_static("text/plain; charset=utf-8");
    let allow = HeaderValue::from_static("GET, HEAD");
    let text = b"method not allowed\n";
    fill(moment, response, StatusCode::METHOD_NOT_ALLOWED, kind, text)?;
    response.add_header(HeaderName::from_static("allow"), allow)
}

fn misdirected(moment: Moment, response: &mut Response) -> Result<(), AllocError>
    requires blank { IsBlank response.old }
    ensures filled { OnOk result (IsTyped moment.date 421 (codes "text/plain; charset=utf-8")
        (codes "misdirected request\n") response.new) }
{
    let kind = HeaderValue::from_static("text/plain; charset=utf-8");
    let text = b"misdirected request\n";
    fill(
        moment,
        response,
        StatusCode::MISDIRECTED_REQUEST,
        kind,
        text,
    )
}

/// Answers requests from one status.
#[derive(Drop)]
pub(crate) struct Routes<'s> {
    alloc: Global,
    status: &'s Status,
    date: HttpDate,
}

impl<'s> Routes<'s> {
    pub(crate) fn new(alloc: Global, status: &'s Status, date: HttpDate) -> Routes<'s>
        ensures shown { shown_at result.status.now result.date ≡ shown_at status.now date }
    {
        Routes {
            alloc,
            status,
            date,
        }
    }
}

impl<'s> Service for Routes<'s> {
    ghost answers = { λ old request response new.
        (new ≡ old) × Answers (shown_at old.status.now old.date) request response };

    fn call(
        &mut self,
        request: &Request<Bytes>,
        response: &mut Response,
    ) -> Result<(), AllocError> {
        let moment = Moment {
            alloc: self.alloc,
            date: self.date,
        };
        if !is_own_request(request) {
            return misdirected(moment, response);
        }
        match route_of(request.uri().path()) {
            None => not_found(moment, response),
            Some(route) if is_read(request.method()) => {
                show(moment, self.status, route, response)
            }
            Some(_) => not_allowed(moment, response),
        }
    }
}
