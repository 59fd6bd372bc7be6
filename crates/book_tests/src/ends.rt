//! A tree of moments, by all its calls.

use crate::checks::Checks;
use anyhow::anyhow;
use std::alloc::Global;
use winner_tree::WinnerTree;

/// The tree finds the first position that has ended, after each change of it.
pub fn finds_the_positions_that_have_ended(
    checks: &mut Checks,
    alloc: Global,
) -> anyhow::Result<()> {
    let mut tree = WinnerTree::new(alloc);
    for end in [50, 20, 70, 40, 60] {
        tree.push(end)?;
    }
    checks.that(tree.len() == 5);
    if tree.len() != 5 {
        return Err(anyhow!("no five positions"));
    }
    checks.that(tree.least(0) == 20);
    checks.that(tree.least(2) == 70);
    checks.that(tree.least(9) == u64::MAX);
    checks.that(tree.first_ended(19) == None);
    checks.that(tree.first_ended(20) == Some(1));
    tree.set(1, 80);
    checks.that(tree.first_ended(20) == None);
    checks.that(tree.first_ended(40) == Some(3));
    tree.swap_remove(3);
    checks.that(tree.len() == 4);
    checks.that(tree.end(3) == 60);
    checks.that(tree.first_ended(49) == None);
    tree.pop();
    tree.end_all();
    checks.that(tree.first_ended(0) == Some(0));
    Ok(())
}
