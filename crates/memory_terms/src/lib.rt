//! Words for contracts of calls that may lack memory; there is nothing to call.
//!
//! No contract promises enough memory. The contract of a call whose faults include lack of memory says so by a word of
//! `specs/Lack.antt`, which takes that fault:
//!
//! ```text
//! ensures path { AsDefined PathFault.Memory result (resolved self.now text.now) }
//! ensures refused { IfErr result
//!     (Unless AuthorizerFault.Memory (λ fault. fault ≡ AuthorizerFault.BadPath)) }
//! ```
#![tactic(auto)]
