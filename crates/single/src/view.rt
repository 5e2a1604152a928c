ghost use Rattle.std.specs.Prelude.{◌≡◌, map, length, take, nat_le};
ghost use Rattle.std.specs.Option.{option_map};
ghost use Rattle.model.specs.Lists.{nth};
ghost use Rattle.model.specs.Rows.{bare, for_node};
ghost use Rattle.request.specs.Place.{content_of};
ghost use Rattle.single.specs.Numbers.{past, all_at};
ghost use Rattle.single.specs.Single.{name_of, numbers_of, chosen_of, content, bytes_of, name_or_none, category_at, attributes_at, seen_in, is_resource_category, has_category_at};

use crate::seen::Seen;
use crate::shown::{shown_at, shown_count};
use crate::single::SingleRequest;
use model::codes::RESOURCE;
use request::request::Request;

fn all_below(numbers: &[u8], elements: usize) -> bool
    ensures { result ≡ nat_le (past numbers.now) elements }
{
    numbers.iter().all(|number| usize::from(*number) < elements)
}

impl<'r, 'a> SingleRequest<'r, 'a, 'a> {
    // The first `count` of the chosen elements as they stand, for no node; none where a number names no element.
    pub fn new(
        request: &'r Request<'a>,
        chosen: [u8; 16],
        count: u8,
    ) -> Option<SingleRequest<'r, 'a, 'a>>
        ensures chosen { option_map chosen_of result ≡ all_at (content_of request.now).elements (take count chosen) }
        ensures content { option_map content result ≡ option_map (map bare) (all_at (content_of request.now).elements (take count chosen)) }
    {
        let count = count.min(16);
        if all_below(&chosen[..usize::from(count)], request.elements().len()) {
            Some(SingleRequest {
                request,
                chosen,
                count,
                name: None,
            })
        } else {
            None
        }
    }
}

impl<'r, 'a, 'n> SingleRequest<'r, 'a, 'n> {
    // The same elements for the node of that name.
    pub fn at<'m>(&self, name: &'m [u8]) -> SingleRequest<'r, 'a, 'm>
        ensures chosen { chosen_of result ≡ chosen_of self.now }
        ensures content { content result ≡ map (for_node name.now) (chosen_of self.now) }
    {
        SingleRequest {
            request: self.request,
            chosen: self.chosen,
            count: self.count,
            name: Some(name),
        }
    }

    // Their numbers in the request.
    fn numbers(&self) -> &[u8]
        ensures { result.now ≡ numbers_of self.now }
    {
        &self.chosen[..usize::from(self.count)]
    }

    // How many elements there are.
    pub fn elements(&self) -> usize
        ensures { result ≡ length (content self.now) }
    {
        self.numbers().len()
    }

    fn number(&self, element: usize) -> Option<u8>
        ensures { result ≡ nth (numbers_of self.now) element }
    {
        self.numbers().get(element).copied()
    }

    pub fn category(&self, element: usize) -> Option<u8>
        ensures { result ≡ category_at (content self.now) element }
    {
        let number = self.number(element)?;
        Some(self.request.elements()[usize::from(number)].category)
    }

    // Whether an element is of a category; past the last one none is.
    pub fn has_category(&self, element: usize, category: u8) -> bool
        ensures { result ≡ has_category_at (content self.now) element category }
    {
        self.category(element) == Some(category)
    }

    // Whether an element is the resource, for a node.
    fn is_node(&self, element: usize) -> bool
        ensures { result ≡ is_resource_category (name_of self.now) (category_at (content self.now) element) }
    {
        self.name.is_some() && self.has_category(element, RESOURCE)
    }

    // How many attributes an element has; none past the last element.
    pub fn attributes(&self, element: usize) -> usize
        ensures { result ≡ length (attributes_at (content self.now) element) }
    {
        let Some(number) = self.number(element) else {
            return 0;
        };
        let held = self.request.attributes(usize::from(number));
        shown_count(held, self.is_node(element))
    }

    // An attribute of an element, both by their numbers here.
    pub fn attribute(&self, element: usize, number: usize) -> Option<Seen>
        ensures { option_map (seen_in self.now) result ≡ nth (attributes_at (content self.now) element) number }
    {
        let chosen = self.number(element)?;
        let held = self.request.attributes(usize::from(chosen));
        shown_at(held, self.is_node(element), number)
    }

    // The request's bytes, which hold every issuer, and every value but a node's name.
    pub fn bytes(&self) -> &'a [u8]
        ensures { result.now ≡ bytes_of self.now }
    {
        self.request.bytes()
    }

    // The node's name; empty where there is no node.
    pub fn name(&self) -> &'n [u8]
        ensures { result.now ≡ name_or_none (name_of self.now) }
    {
        self.name.unwrap_or(&[])
    }
}
