// The sets of rights that a book is asked about.
use rights::{Right, RightSet};
use std::alloc::{AllocError, Global};

// No right, each right alone, each right with the next one, and all.
pub fn probes(heap: Global, rights: &[Right]) -> Result<Vec<RightSet>, AllocError> {
    let none = RightSet::empty();
    let mut sets = Vec::new(heap);
    sets.push(none)?;
    for right in rights {
        sets.push(none.with(*right))?;
    }
    for (lower, upper) in rights.iter().zip(rights.iter().skip(1)) {
        sets.push(none.with(*lower).with(*upper))?;
    }
    sets.push(rights.iter().fold(none, |set, right| set.with(*right)))?;
    Ok(sets)
}
