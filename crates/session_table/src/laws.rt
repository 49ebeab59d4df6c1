//! Laws of every step.

ghost use Rattle.session_table.specs.Laws.{AdmissionsAreRightful, CallsAreRightful, FewLinesAreHeld, FloorsAreReleasedOnce, NoCallsOutside, NoTransferUnprepared, OneThingIsAsked, OthersAskNoFloors, SourcesAreNamed};

use std::alloc::Allocator;

/// Each call of the store is the `finish` of the sink that came back, or is on a path at which the user has the letter
/// of the command that is served; the entry to rename is the one that RNFR named.
pub fn calls_are_rightful<A: Allocator, R, K>()
    ensures rightful { CallsAreRightful A R K }
{}

/// While nobody is logged in, and after the control connection is gone, the store is not called except for the `finish`
/// of the sink that came back.
pub fn no_calls_outside<A: Allocator, R, K>()
    ensures outside { NoCallsOutside A R K }
{}

/// No transfer starts unless a data connection is prepared.
pub fn no_transfer_unprepared<A: Allocator, R, K>()
    ensures unprepared { NoTransferUnprepared A R K }
{}

/// At most 16 lines are held, unless more were held before.
pub fn few_lines_are_held<A: Allocator, R, K>()
    ensures few { FewLinesAreHeld A R K }
{}

/// The guaranteed rate of a user is released in the step in which the user leaves, under the number of the login, and
/// in no other step. A user who is admitted is logged in after that step under the number that was admitted, and nobody
/// was before.
pub fn floors_are_released_once<A: Allocator, R, K>()
    ensures once { FloorsAreReleasedOnce A R K }
{}

/// Admission is asked only for the user who was named, by PASS in its turn with the right password.
pub fn admissions_are_rightful<A: Allocator, R, K>()
    ensures rightful { AdmissionsAreRightful A R K }
{}

/// A step that does not serve PASS asks for no admission. So a host needs the floors that its sessions share for PASS
/// alone, and need not lock them for any other step.
pub fn others_ask_no_floors<A: Allocator, R, K>()
    ensures others { OthersAskNoFloors A R K }
{}

/// A step asks at most once for a passive port or a transfer, and only for a line.
pub fn one_thing_is_asked<A: Allocator, R, K>()
    ensures one { OneThingIsAsked A R K }
{}

/// The path that RNFR named is that of an RNFR that was served and allowed; any other served line forgets it.
pub fn sources_are_named<A: Allocator, R, K>()
    ensures named { SourcesAreNamed A R K }
{}
