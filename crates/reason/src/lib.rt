// Why a client's message is done, ignored or refused: definitions in specs/, theorems in proofs/.
#![tactic(auto)]

use field::Fault;

// The check that decides. specs/Reason.antt has the number that goes with each.
#[derive(Drop)]
pub enum Reason {
    // The number, and the place of the first byte of the field.
    // Stays: what may not change (OneReason). No Result, since a refusal is one of the reasons that it ranges over.
    Refused(Fault),
    KeepAlive,
    // The ID of the entry that has the name.
    NameHeld(u16),
    // Of an update: Older by stored minus received, Applied by received minus stored, modulo 65,536.
    Equal,
    Older(u16),
    Undefined,
    Applied(u16),
    // A hello, or a new assignment.
    Done,
}
