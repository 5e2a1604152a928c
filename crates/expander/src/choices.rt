use crate::content::Element;
use crate::read::request::tagged;
use std::alloc::{AllocError, Global};

// The position of the first tag that no element carries.
pub(crate) fn first_unknown(elements: &[Element], tags: &[u8]) -> Option<usize> {
    tags.iter().position(|tag| tagged(elements, *tag).is_none())
}

// The numbers of the elements that tags name.
pub(crate) fn listed(
    heap: Global,
    elements: &[Element],
    tags: &[u8],
) -> Result<Vec<usize>, AllocError> {
    tags.iter()
        .filter_map(|tag| tagged(elements, *tag))
        .collect(heap)
}

// The numbers of all elements.
pub(crate) fn all(heap: Global, elements: &[Element]) -> Result<Vec<usize>, AllocError> {
    (0..elements.len()).collect(heap)
}

// For each category, in the order of first appearance, the positions in the list that have it.
pub(crate) fn groups(
    heap: Global,
    elements: &[Element],
    list: &[usize],
) -> Result<Vec<Vec<usize>>, AllocError> {
    let mut categories = Vec::new(heap);
    for element in list.iter().filter_map(|number| elements.get(*number)) {
        if !categories.contains(&element.category) {
            categories.push(element.category)?;
        }
    }
    categories
        .iter()
        .map(|category| -> Result<Vec<usize>, AllocError> {
            group(heap, elements, list, *category)
        })
        .try_collect(heap)
}

fn group(
    heap: Global,
    elements: &[Element],
    list: &[usize],
    category: u8,
) -> Result<Vec<usize>, AllocError> {
    list.iter()
        .enumerate()
        .filter(|(_, number)| {
            elements
                .get(**number)
                .is_some_and(|element| element.category == category)
        })
        .map(|(position, _)| position)
        .collect(heap)
}

// The product of the groups: one number in each, the last one moves first.
pub(crate) fn product(heap: Global, groups: &[Vec<usize>]) -> Result<Vec<Vec<usize>>, AllocError> {
    let mut choices = vec![in heap; Vec::new(heap)]?;
    for group in groups {
        choices = times(heap, choices.as_slice(), group.len())?;
    }
    Ok(choices)
}

// Each choice, followed by each number below the width.
fn times(
    heap: Global,
    choices: &[Vec<usize>],
    width: usize,
) -> Result<Vec<Vec<usize>>, AllocError> {
    let mut longer = Vec::new(heap);
    for choice in choices {
        for number in 0..width {
            let mut next = Vec::from_slice(heap, choice.as_slice())?;
            next.push(number)?;
            longer.push(next)?;
        }
    }
    Ok(longer)
}

// The numbers of the elements that a choice takes, in the order of the list.
pub(crate) fn taken(
    heap: Global,
    list: &[usize],
    groups: &[Vec<usize>],
    choice: &[usize],
) -> Result<Vec<usize>, AllocError> {
    list.iter()
        .enumerate()
        .filter(|(position, _)| takes(groups, choice, *position))
        .map(|(_, number)| *number)
        .collect(heap)
}

fn takes(groups: &[Vec<usize>], choice: &[usize], position: usize) -> bool {
    groups
        .iter()
        .zip(choice)
        .any(|(group, number)| group.get(*number) == Some(&position))
}
