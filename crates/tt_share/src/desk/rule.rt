//! What a desk's words, and what its seats know, keep to between any two steps. The types here are for the proofs alone.
use atomic_table::{Join, Play, Split, TableRule};
use std::collections::LinkedList;

/// How many jobs, seats and grants a desk has. Where it has no total it grants without a step, and where
/// that is 0 it refuses without one: `total` is 0 in both cases.
#[derive(Drop)]
pub struct DeskSize {
    pub jobs: usize,
    pub seats: usize,
    pub total: u32,
}

/// What a seat knows: how many of the desk's seats it stands for, the numbers that it drew and those that it got as grants,
/// whether it raised the flag and whether it saw the flag. No value of it is made.
pub struct SeatKnowledge {
    pub seat_count: u64,
    pub numbers: LinkedList<u64>,
    pub grants: LinkedList<u64>,
    pub flag: bool,
    pub saw_flag: bool,
}

/// The rule of the desk.
pub struct DeskRule;

impl TableRule<(), SeatKnowledge, DeskSize> for DeskRule {
    ghost use Rattle.tt_share.specs.Desk.{IsDeskInvariant, first_seat_knowledge};

    ghost holds = { IsDeskInvariant };

    ghost first = { first_seat_knowledge };
}

/// A number was drawn.
pub struct Draw;

impl Play<(), SeatKnowledge> for Draw {
    ghost use Rattle.tt_share.specs.Desk.{IsSeatAfterDraw};

    ghost then = { λ step before found after. IsSeatAfterDraw before found after };
}

/// A grant was asked for: the number says whether it was given.
pub struct GrantRequest;

impl Play<(), SeatKnowledge> for GrantRequest {
    ghost use Rattle.tt_share.specs.Desk.{IsSeatAfterAsk};

    ghost then = { λ step before found after. IsSeatAfterAsk before found after };
}

/// The flag was raised.
pub struct FlagRaise;

impl Play<(), SeatKnowledge> for FlagRaise {
    ghost use Rattle.tt_share.specs.Desk.{IsSeatAfterRaise};

    ghost then = { λ step before found after. IsSeatAfterRaise before after };
}

/// The flag was looked at.
pub struct FlagLook;

impl Play<(), SeatKnowledge> for FlagLook {
    ghost use Rattle.tt_share.specs.Desk.{IsSeatAfterLook};

    ghost then = { λ step before found after. IsSeatAfterLook before found after };
}

/// One seat is cut from one that has made no step.
pub struct SeatSplit;

impl Split<SeatKnowledge> for SeatSplit {
    ghost use Rattle.tt_share.specs.Desk.{knowledge_less_one_seat, new_seat_knowledge};

    ghost left = { knowledge_less_one_seat };

    ghost right = { λ knowledge. new_seat_knowledge };
}

/// Two seats are made one.
pub struct SeatJoin;

impl Join<SeatKnowledge> for SeatJoin {
    ghost use Rattle.tt_share.specs.Desk.{joined_knowledge, no_knowledge};

    ghost both = { joined_knowledge };

    ghost spent = { no_knowledge };
}
