//! The test of unconditional life: stones are taken away that have neither a liberty outside the region nor two eyes, till none goes.

ghost use Rattle.std.specs.Prelude.{◌≡◌, ℕ, ◌<◌, ◌↔◌, true, IsTrue, MatchOption};
ghost use Rattle.tt_sgf.specs.Sizes.{point_count};
ghost use Rattle.tt_sgf.specs.MachineWords.{bit_in};
ghost use Rattle.tt_sgf.specs.declared.bits.TheConstants.{BITS};
ghost use Rattle.tt_board.specs.Position.{Colouring};
ghost use Rattle.tt_board.specs.Stones.{IsSetOnBoard};
ghost use Rattle.tt_board.specs.Around.{AreFirstColumn, AreOn};
ghost use Rattle.tt_life.specs.Life.{HasWonOrLives, IsAliveAmong, IsUnconditionallyAlive};
ghost use Rattle.tt_life.specs.inside.Linked.{points_in, IsLinkedSet, IsWalled, IsSubset, IsAtEye, IsAtOneEye, AreAtTwoEyes, IsGroundOf, IsSoundGround, AreDefenders, AreMostAlive};

use tt_board::{Board, adjacent_points, first_column, reaching};
use tt_game::{Frame, Line, Side};
use tt_sgf::{BITS, Bits, PointSet, Size};

/// The points of a board as the test asks for them: those without a stone of the defender, those without any stone, and of these the
/// ones outside the region.
#[derive(Clone, Copy)]
pub(crate) struct Ground {
    pub(crate) space: Bits,
    pub(crate) empty: Bits,
    pub(crate) outside: Bits,
}

/// What is linked to a point over points of its set.
pub(crate) fn linked_to(size: Size, own: &Bits, p: usize) -> Bits
    requires mine { IsTrue (points_in size own.now.words p) }
    requires on_board { AreOn size own.now.words }
    ensures linked { IsLinkedSet size (points_in size own.now.words) p (points_in size result.words) }
    ensures still_on_board { AreOn size result.words }
{
    let mut others = *own;
    others.clear_bit(p);
    let mut alone = Bits::none();
    alone.set(p);
    let mut found = reaching(size, &others, &alone);
    found.set(p);
    found
}

/// Whether these points are walled in by the stones, and all near.
fn is_touched_eye(size: Size, first: &Bits, eye: &Bits, stones: &Bits, near: &Bits) -> bool
    requires first { AreFirstColumn size first.now.words }
    requires on_board { AreOn size eye.now.words }
    ensures { IsTrue result
        ↔ (IsWalled size (points_in size stones.now.words) (points_in size eye.now.words)
        × IsSubset (points_in size eye.now.words) (points_in size near.now.words)) }
{
    let around = adjacent_points(size, first, eye).truncated_to(size.point_count());
    if !around.is_within_union(eye, stones) {
        return false;
    }
    eye.is_within_union(near, near)
}

/// The empty points of the eyes that are walled in by the stones and all near. Each eye is looked at once.
pub(crate) fn touched_eyes(
    size: Size,
    ground: &Ground,
    first: &Bits,
    stones: &Bits,
    near: &Bits,
) -> Bits
    requires first { AreFirstColumn size first.now.words }
    requires sound { IsSoundGround size ground.now }
    ensures { (q : ℕ) → q < BITS → (bit_in result.words q ≡ true)
        ↔ IsAtEye size ground.now (points_in size stones.now.words) (points_in size near.now.words) q }
{
    let starts = near.and(&ground.empty);
    let mut eyes = Bits::none();
    let mut done = Bits::none();
    let mut next = 0;
    loop {
        let p = starts.minus(&done).first_from(next);
        if p >= size.point_count() {
            return eyes;
        }
        next = p + 1;
        let eye = linked_to(size, &ground.space, p);
        done = done.or(&eye);
        if !is_touched_eye(size, first, &eye, stones, near) {
            continue;
        }
        eyes = eyes.or(&eye.and(&starts));
    }
}

/// Two eyes that are walled in by the stones and all near, by their least empty points. None where there aren't two.
pub(crate) fn two_touched_eyes(
    size: Size,
    ground: &Ground,
    first: &Bits,
    stones: &Bits,
    near: &Bits,
) -> Option<(usize, usize)>
    requires first { AreFirstColumn size first.now.words }
    requires sound { IsSoundGround size ground.now }
    ensures { MatchOption result (IsAtOneEye size ground.now (points_in size stones.now.words) (points_in size near.now.words))
        (λ eyes. AreAtTwoEyes size ground.now (points_in size stones.now.words) (points_in size near.now.words) eyes.0 eyes.1) }
{
    let eyes = touched_eyes(size, ground, first, stones, near);
    let one = eyes.first_from(0);
    if one == BITS {
        return None;
    }
    let eye = linked_to(size, &ground.space, one);
    let other = eyes.minus(&eye).first_from(0);
    if other == BITS {
        return None;
    }
    Some((one, other))
}

/// Whether a chain has a liberty outside the region, or two eyes.
fn is_alive(frame: &Frame, ground: &Ground, first: &Bits, stones: &Bits, chain: &Bits) -> bool
    requires first { AreFirstColumn frame.now.size first.now.words }
    requires sound { IsSoundGround frame.now.size ground.now }
    requires on_board { AreOn frame.now.size chain.now.words }
    ensures { (c : Colouring) → IsGroundOf frame.now c ground.now
        → AreDefenders frame.now c (points_in frame.now.size stones.now.words)
        → (p : ℕ) → IsTrue (points_in frame.now.size stones.now.words p)
        → IsLinkedSet frame.now.size (points_in frame.now.size stones.now.words) p (points_in frame.now.size chain.now.words)
        → IsTrue result ↔ IsAliveAmong frame.now c (points_in frame.now.size stones.now.words) p }
{
    let near = adjacent_points(frame.size, first, chain);
    if near.and(&ground.outside).first_from(0) < BITS {
        return true;
    }
    two_touched_eyes(frame.size, ground, first, stones, &near).is_some()
}

/// The stones that are alive among these: all with a liberty outside the region, which are found at once, and the others chain by chain.
fn survivors(frame: &Frame, ground: &Ground, first: &Bits, stones: &Bits) -> Bits
    requires first { AreFirstColumn frame.now.size first.now.words }
    requires sound { IsSoundGround frame.now.size ground.now }
    requires on_board { AreOn frame.now.size stones.now.words }
    ensures alive { (c : Colouring) → IsGroundOf frame.now c ground.now
        → AreDefenders frame.now c (points_in frame.now.size stones.now.words)
        → (q : ℕ) → IsTrue (points_in frame.now.size result.words q)
        ↔ (IsTrue (points_in frame.now.size stones.now.words q)
        × IsAliveAmong frame.now c (points_in frame.now.size stones.now.words) q) }
    ensures within { IsSubset (points_in frame.now.size result.words) (points_in frame.now.size stones.now.words) }
    ensures still_on_board { AreOn frame.now.size result.words }
{
    let inner = stones.minus(&ground.outside);
    let safe = reaching(frame.size, &inner, &ground.outside);
    let mut kept = safe;
    let mut done = safe;
    let mut next = 0;
    loop {
        let p = stones.minus(&done).first_from(next);
        if p >= frame.size.point_count() {
            return kept;
        }
        next = p + 1;
        let chain = linked_to(frame.size, stones, p);
        done = done.or(&chain);
        if !is_alive(frame, ground, first, stones, &chain) {
            continue;
        }
        kept = kept.or(&chain);
    }
}

/// The stones that are left when all go that aren't alive among what is left.
pub(crate) fn eliminate(frame: &Frame, ground: &Ground, first: &Bits, stones: &Bits) -> Bits
    requires first { AreFirstColumn frame.now.size first.now.words }
    requires sound { IsSoundGround frame.now.size ground.now }
    requires on_board { AreOn frame.now.size stones.now.words }
    ensures most { (c : Colouring) → IsGroundOf frame.now c ground.now
        → AreDefenders frame.now c (points_in frame.now.size stones.now.words)
        → AreMostAlive frame.now c (points_in frame.now.size stones.now.words) (points_in frame.now.size result.words) }
    ensures still_on_board { AreOn frame.now.size result.words }
{
    let mut left = *stones;
    loop {
        let next = survivors(frame, ground, first, &left);
        let gone = left.minus(&next);
        if gone.first_from(0) == BITS {
            return left;
        }
        left = next;
    }
}

/// The points of a board as the test asks for them.
pub(crate) fn ground_of(frame: &Frame, board: &Board) -> Ground
    requires same_size { board.now.size ≡ frame.now.size }
    ensures sound { IsSoundGround frame.now.size result }
    ensures ground { IsGroundOf frame.now board.now.points result }
{
    let stones = board.bits(frame.defender);
    let theirs = board.bits(frame.defender.other());
    let region = frame.region.bits();
    let points = PointSet::whole(frame.size);
    let whole = points.bits();
    let space = whole.minus(stones);
    let empty = space.minus(theirs);
    let outside = empty.minus(region);
    Ground {
        space,
        empty,
        outside,
    }
}

/// Whether all targets are unconditionally alive: no play of the attacker takes one, even if the defender always passes.
fn is_unconditionally_alive(frame: &Frame, board: &Board) -> bool
    requires same_size { board.now.size ≡ frame.now.size }
    requires targets_on_board { IsSetOnBoard frame.now.size frame.now.targets }
    ensures { IsTrue result ↔ IsUnconditionallyAlive frame.now board.now.points }
{
    let defenders = board.bits(frame.defender);
    let targets = frame.targets.bits();
    let ground = ground_of(frame, board);
    let left = eliminate(frame, &ground, &first_column(frame.size), defenders);
    targets.is_within_union(&left, &left)
}

/// Whether all targets of a line are unconditionally alive on its present board. Then the attacker can't force a win from there.
pub fn has_unconditional_life(line: &Line) -> bool
    ensures { IsTrue result ↔ IsUnconditionallyAlive line.now.frame line.now.state.present }
{
    is_unconditionally_alive(line.frame(), line.present())
}

/// Whether the side has won at a line; or it is the defender, the attacker is to move, and the targets are unconditionally alive.
pub fn has_won_or_lives(side: Side, line: &Line) -> bool
    ensures { IsTrue result ↔ HasWonOrLives side line.now.frame line.now.state }
{
    if line.winner() == Some(side) {
        return true;
    }
    side == Side::Defender && line.to_move() == Side::Attacker && has_unconditional_life(line)
}
