//! New users, rates and limits of a running server.

ghost use Rattle.std.specs.Prelude.{◌≡◌, true, IfOk, Ok, OnErr, OnOk};
ghost use Rattle.rate_floors.specs.Carried.{carried};
ghost use Rattle.round_pace.specs.Changed.{IsChangedTo};
ghost use Rattle.round_pace.specs.Guaranteed.{AreCounted};

use crate::opening::new_cadence;
use lane_rounds::Engine;
use lent_parts::{LentRounds, PartsName};
use line_rates::Limits;
use passive_ports::{Admissions, ConnectionLimits};
use rate_floors::{CarryFault, Floors};
use server_house::{DueTerms, House, ServerHooks, Terms};
use std::alloc::{AllocError, Global};
use std::sync::{Arc, Wait};
use thiserror::Error;
use virtual_tree::Store;

/// The parts of a configuration that a running server takes. Users and groups have the numbers that they have in the
/// server.
#[derive(Drop)]
pub struct Reload {
    /// The users, and the settings of sessions.
    pub terms: Arc<Terms>,
    pub limits: Limits,
    /// Maximum number of connections; at most that of the start. If more are there, nobody is admitted until they are
    /// fewer.
    pub max_cons: u16,
    /// Maximum number of connections from an address; 0 for no limit. If more are there, nobody is admitted from that
    /// address until they are fewer.
    pub max_cons_per_address: u16,
}

/// A reload that the owner of a server asks for.
#[derive(Drop)]
pub enum ReloadSign {
    /// None is asked for.
    Nothing,
    /// The configuration cannot be taken, for this reason; none if memory ran out.
    Refused(Option<String>),
    /// The configuration is to be taken.
    Asked(Reload),
}

/// The reason for which a server does not take them, and goes on as before.
#[derive(Clone, Copy, Debug, PartialEq, Eq, Error)]
pub enum ReloadFault {
    /// The guarantees of the sessions inside do not fit.
    #[error("the guarantees of the sessions inside do not fit the new rates: {0}")]
    Guarantees(CarryFault),
    /// Memory ran out.
    #[error("out of memory")]
    Memory,
}

// The sessions inside, counted under new limits, if their guarantees fit these.
fn counted_under(alloc: Global, floors: &Floors, limits: &Limits) -> Result<Floors, ReloadFault>
    ensures carried { IfOk result (λ new. carried floors.now limits.now ≡ Ok new) }
    ensures counted { IfOk result (AreCounted limits.now) }
{
    match floors.carried(alloc, limits) {
        Ok(new) => {
            new.promises_fit();
            Ok(new)
        }
        Err(CarryFault::Memory) => Err(ReloadFault::Memory),
        Err(fault) => Err(ReloadFault::Guarantees(fault)),
    }
}

// Puts limits in force, in all parts or in none. In all parts, the terms beside them are due.
fn put_in_force<B: PartsName, N>(
    alloc: Global,
    registry: &mut Admissions,
    floors: &mut Floors,
    rounds: &mut LentRounds<B, N>,
    counts: ConnectionLimits,
    limits: Limits,
    terms: Arc<Terms>,
) -> Result<DueTerms, ReloadFault>
    requires allowed { B.rates limits ≡ true }
    ensures due { IfOk result (λ due. due.terms ≡ terms) }
    ensures registry { OnOk result (registry.new.limits ≡ counts) }
    ensures same_connections { registry.new.registry ≡ registry.old.registry }
    ensures floors { OnOk result (carried floors.old limits ≡ Ok floors.new) }
    ensures counted { OnOk result (AreCounted limits floors.new) }
    ensures pace { OnOk result (IsChangedTo limits rounds.old.rounds.pace
        rounds.new.rounds.pace) }
    ensures same_registry { OnErr result (registry.new ≡ registry.old) }
    ensures same_floors { OnErr result (floors.new ≡ floors.old) }
    ensures same_pace { OnErr result
        (rounds.new.rounds.pace ≡ rounds.old.rounds.pace) }
{
    let counted = counted_under(alloc, floors, &limits)?;
    let Ok(cadence) = new_cadence(alloc, &limits) else {
        return Err(ReloadFault::Memory);
    };
    match rounds.change(alloc, limits, cadence) {
        Ok(()) => {
            registry.limits = counts;
            *floors = counted;
            Ok(DueTerms::of(terms))
        }
        Err(AllocError) => Err(ReloadFault::Memory),
    }
}

/// Takes new parts: from the next round on rates and guarantees are the new ones, and whoever logs in from now on meets
/// the new users. After an error everything is as it was.
pub(crate) fn take<R, S, H, B, N>(
    rt: &R,
    alloc: Global,
    house: &House<S, H, B>,
    engine: &Engine<B, N>,
    reload: Reload,
) -> Result<(), ReloadFault>
where
    R: Wait,
    S: Store<Global>,
    H: ServerHooks,
    B: PartsName,
    requires allowed { B.rates reload.limits ≡ true }
{
    let Reload {
        terms,
        limits,
        max_cons,
        max_cons_per_address,
    } = reload;
    let counts = ConnectionLimits {
        max: usize::from(max_cons),
        max_of_address: usize::from(max_cons_per_address),
    };
    let mut registry = house.registry.lock(rt);
    let mut floors = house.floors.lock(rt);
    let mut rounds = engine.rounds.lock(rt);
    let due = put_in_force(
        alloc,
        &mut *registry,
        &mut *floors,
        &mut *rounds,
        counts,
        limits,
        terms,
    )?;
    house.terms.exchange(rt, due);
    Ok(())
}
