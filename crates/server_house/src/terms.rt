//! The terms by which sessions go: a reload of the configuration exchanges them.

ghost use Rattle.std.specs.Prelude.{◌≡◌};
ghost use Rattle.std.specs.Arc.{arc_value};

use authorizer::Authorizer;
use session_table::Settings;
use std::alloc::AllocError;
use std::sync::atomic::{AtomicU64, Ordering};
use std::sync::{Arc, Mutex, Wait};

/// The users of a server, and the settings of its sessions.
#[derive(Drop)]
pub struct Terms {
    pub users: Authorizer,
    pub settings: Settings,
}

/// The terms of a reload whose limits are in force. They must come into force too, and only [`SharedTerms::exchange`] takes
/// them: a value of this type is not dropped.
pub struct DueTerms {
    terms: Arc<Terms>,
}

impl DueTerms {
    /// The terms of a reload, once the rest of it is in force.
    pub fn of(terms: Arc<Terms>) -> DueTerms
        ensures terms { result.terms ≡ terms }
    {
        DueTerms { terms }
    }
}

/// The terms that a session holds.
#[derive(Drop)]
pub struct HeldTerms {
    terms: Arc<Terms>,
    exchanges: u64,
}

impl HeldTerms {
    /// The terms.
    pub fn terms(&self) -> &Terms
        ensures terms { result.now ≡ arc_value self.now.terms }
    {
        &self.terms
    }

    /// Number of exchanges before they were in force.
    pub fn exchanges(&self) -> u64
        ensures exchanges { result ≡ self.now.exchanges }
    {
        self.exchanges
    }
}

/// The terms in force. They may be exchanged while sessions hold earlier ones.
#[derive(Drop)]
pub struct SharedTerms {
    newest: Mutex<Arc<Terms>>,
    // number of exchanges; it increases while the lock is held
    exchanges: AtomicU64,
}

impl SharedTerms {
    /// The first terms.
    pub fn new(terms: Arc<Terms>) -> SharedTerms {
        SharedTerms {
            newest: Mutex::new(terms),
            exchanges: AtomicU64::new(0),
        }
    }

    /// Number of exchanges so far.
    pub fn exchanges(&self) -> u64 {
        self.exchanges.load(Ordering::SeqCst)
    }

    /// The terms in force, for a session to hold. Fails if there are too many holders.
    pub fn hold<R: Wait>(&self, rt: &R) -> Result<HeldTerms, AllocError> {
        let newest = self.newest.lock(rt);
        let terms = Arc::try_clone(&*newest)?;
        Ok(HeldTerms {
            terms,
            exchanges: self.exchanges(),
        })
    }

    /// Puts the terms of a reload in force.
    pub fn exchange<R: Wait>(&self, rt: &R, due: DueTerms) {
        let mut newest = self.newest.lock(rt);
        put(&mut *newest, due);
        self.exchanges.fetch_add(1, Ordering::SeqCst);
    }
}

// Puts due terms in the place of those in force.
fn put(newest: &mut Arc<Terms>, due: DueTerms)
    ensures put { newest.new ≡ due.terms }
{
    let DueTerms { terms } = due;
    *newest = terms;
}
