ghost use Rattle.std.specs.Prelude.{◌≡◌};
ghost use Rattle.model.specs.Refused.{meant};
ghost use Rattle.wire.specs.Told.{in_field, in_refused};
ghost use Rattle.wire.specs.declared.fault.Refused.TheVariants as refused;

use model::item::{Item, Kind};
use model::refusal::{Defect, Refusal};

// A field that was refused, and the place of the byte.
#[derive(Clone, Copy, Debug, PartialEq)]
pub struct Fault {
    pub defect: Defect,
    pub place: usize,
}

// What was refused in an item of a file, or of another item.
#[derive(Clone, Copy, Debug, PartialEq)]
pub struct ItemFault<E> {
    pub item: Item,
    pub fault: E,
}

// What was refused in a file or in an item: a field of its own, or something in an item of it.
#[derive(Clone, Copy, Debug, PartialEq)]
pub enum Refused<E> {
    Field(Fault),
    Item(ItemFault<E>),
}

impl<E> ItemFault<E> {
    pub fn new(kind: Kind, number: usize, fault: E) -> ItemFault<E>
        ensures { result ≡ record { item = record { kind = kind; number = number }; fault = fault } }
    {
        ItemFault {
            item: Item { kind, number },
            fault,
        }
    }
}

impl<E> From<Fault> for Refused<E> {
    ghost from_gives = { λ e r. r ≡ refused.Field e };

    fn from(field: Fault) -> Refused<E> {
        Refused::Field(field)
    }
}

impl<E> From<ItemFault<E>> for Refused<E> {
    ghost from_gives = { λ e r. r ≡ refused.Item e };

    fn from(in_item: ItemFault<E>) -> Refused<E> {
        Refused::Item(in_item)
    }
}

impl From<Fault> for Refusal {
    ghost from_gives = { λ e r. meant r ≡ in_field e };

    fn from(fault: Fault) -> Refusal {
        Refusal {
            defect: fault.defect,
            outer: None,
            inner: None,
            place: fault.place,
        }
    }
}

// In a file whose items have no items.
impl From<Refused<Fault>> for Refusal {
    ghost from_gives = { λ e r. meant r ≡ in_refused in_field e };

    fn from(fault: Refused<Fault>) -> Refusal {
        match fault {
            Refused::Field(fault) => Refusal::from(fault),
            Refused::Item(of_item) => Refusal {
                outer: Some(of_item.item),
                ..Refusal::from(of_item.fault)
            },
        }
    }
}

impl From<Refused<Refused<Fault>>> for Refusal {
    ghost from_gives = { λ e r. meant r ≡ in_refused (in_refused in_field) e };

    fn from(fault: Refused<Refused<Fault>>) -> Refusal {
        match fault {
            Refused::Field(fault) => Refusal::from(fault),
            Refused::Item(around) => match around.fault {
                Refused::Field(fault) => Refusal {
                    outer: Some(around.item),
                    ..Refusal::from(fault)
                },
                Refused::Item(within) => Refusal {
                    outer: Some(around.item),
                    inner: Some(within.item),
                    ..Refusal::from(within.fault)
                },
            },
        }
    }
}
