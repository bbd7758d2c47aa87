//! How deep a strategy is looked at.
use tt_proof::Tree;

/// How many turns may come beside those of a tree that lie at most so deep; none where they are too many.
fn turns_left_after_tree(tree: &Tree, depth: usize, left: usize) -> Option<usize> {
    if depth == 0 {
        return Some(left);
    }
    match tree {
        Tree::Done => Some(left),
        Tree::Pick(_, child) => turns_left_after_tree(child, depth - 1, left.checked_sub(1)?),
        Tree::Reply(list) => {
            let mut left = left;
            for (_, child) in list.as_slice() {
                left = turns_left_after_tree(child, depth - 1, left.checked_sub(1)?)?;
            }
            Some(left)
        }
    }
}

/// How deep a tree is looked at: as deep as is asked, or as deep as it has at most so many turns.
pub fn shown_depth(tree: &Tree, depth: usize, most: usize) -> usize {
    let mut known = most;
    for deep in 0..depth {
        match turns_left_after_tree(tree, deep + 1, most) {
            None => return deep,
            Some(left) if left == known => return depth,
            Some(left) => known = left,
        }
    }
    depth
}
