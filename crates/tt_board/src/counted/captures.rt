//! A chain goes: each of its stones leaves a liberty to each other chain beside it. Or a colouring loses it, and no count changes.

ghost use Rattle.std.specs.Prelude.{◌≡◌, ◌≢◌, ◌<◌, length, map, slice_set, None};
ghost use Rattle.tt_sgf.specs.Sizes.{point_count};
ghost use Rattle.tt_board.specs.inside.Chains.{name_at, renamed, IsLiving, AreCounted, OtherChainsCounted, AreOthersCounted, HasLost};

use crate::colouring::Colouring;
use crate::counted::chain_counts::{ChainCounts, ChainName};
use crate::counted::chain_names::{chains_beside, give_liberty, root_of};
use tt_sgf::Size;

impl ChainCounts {
    /// Takes the stone of the chain `name` on `p` off, which gives a liberty to each other chain beside it.
    fn remove_stone(&mut self, size: Size, points: &mut Colouring, name: ChainName, p: usize)
        requires fits { length points.old ≡ point_count size }
        requires on_board { p < point_count size }
        requires living { name ≢ 0 }
        requires stone { name_at self.old.names p ≡ name }
        requires others { AreOthersCounted size self.old.names self.old.liberties name }
        ensures names { self.new.names ≡ slice_set self.old.names p 0 }
        ensures stones { self.new.stones ≡ self.old.stones }
        ensures points { points.new ≡ slice_set points.old p None }
        ensures still_counted { OtherChainsCounted size self.new.names self.new.liberties name }
    {
        self.names[p] = 0;
        points.set(p, None);
        let near = chains_beside(size, &self.names, p, name);
        give_liberty(&mut self.liberties, near.as_slice());
    }

    /// Takes the stones of the chain `name` off the board.
    fn remove_chain_stones(&mut self, size: Size, points: &mut Colouring, name: ChainName)
        requires fits { length points.old ≡ point_count size }
        requires counted { AreCounted size self.old }
        requires living { IsLiving self.old.names name }
        ensures names { self.new.names ≡ map (renamed name 0) self.old.names }
        ensures stones { self.new.stones ≡ self.old.stones }
        ensures lost { HasLost self.old.names name points.old points.new }
        ensures still_counted { OtherChainsCounted size self.new.names self.new.liberties name }
    {
        let mut left = self.stones[root_of(name)];
        for p in 0..size.point_count() {
            if left == 0 {
                return;
            }
            if self.names[p] == name {
                self.remove_stone(size, points, name, p);
                left -= 1;
            }
        }
    }

    /// Takes the chain `name` off the board.
    pub(crate) fn remove_chain(&mut self, size: Size, points: &mut Colouring, name: ChainName)
        requires fits { length points.old ≡ point_count size }
        requires counted { AreCounted size self.old }
        requires living { IsLiving self.old.names name }
        ensures names { self.new.names ≡ map (renamed name 0) self.old.names }
        ensures lost { HasLost self.old.names name points.old points.new }
        ensures still_counted { AreCounted size self.new }
    {
        let root = root_of(name);
        if self.stones[root] == 1 {
            self.remove_stone(size, points, name, root);
        } else {
            self.remove_chain_stones(size, points, name);
        }
    }

    /// Takes the stones of the chain `name` off a colouring: a pass over the names that ends with the last of them.
    fn lift_stones_off_colouring(&self, size: Size, points: &mut Colouring, name: ChainName)
        requires fits { length points.old ≡ point_count size }
        requires counted { AreCounted size self.now }
        requires living { IsLiving self.now.names name }
        ensures { HasLost self.now.names name points.old points.new }
    {
        let mut left = self.stones[root_of(name)];
        for p in 0..size.point_count() {
            if left == 0 {
                return;
            }
            if self.names[p] == name {
                points.set(p, None);
                left -= 1;
            }
        }
    }

    /// Takes the stones of the chain `name` off a colouring.
    pub(crate) fn lift_chain_off_colouring(
        &self,
        size: Size,
        points: &mut Colouring,
        name: ChainName,
    )
        requires fits { length points.old ≡ point_count size }
        requires counted { AreCounted size self.now }
        requires living { IsLiving self.now.names name }
        ensures { HasLost self.now.names name points.old points.new }
    {
        let root = root_of(name);
        if self.stones[root] == 1 {
            points.set(root, None);
        } else {
            self.lift_stones_off_colouring(size, points, name);
        }
    }
}
