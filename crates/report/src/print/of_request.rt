use crate::print::described::Described;
use crate::words::category;
use request::content::{Attribute, Element};
use request::request::Request;
use std::io;
use wire::span::Span;

pub fn print_request(rt: &HostRuntime, request: &Request) -> io::Result<()> {
    rt.println(if request.combined() {
        "a verdict over all rows is asked for"
    } else {
        "no verdict is asked for"
    })?;
    for (number, each) in request.elements().iter().enumerate() {
        print_element(rt, number, each)?;
        for (place, one) in request.attributes(number).iter().enumerate() {
            print_attribute(rt, request, place, one)?;
        }
    }
    match request.references() {
        Some(list) => print_references(rt, request, list),
        None => rt.println("no references: all elements are listed once"),
    }
}

fn print_element(rt: &HostRuntime, number: usize, element: &Element) -> io::Result<()> {
    let category = category(element.category);
    match element.tag {
        Some(tag) => println!(rt; "element {number}: category {category}, tag {tag}"),
        None => println!(rt; "element {number}: category {category}"),
    }
}

fn print_attribute(
    rt: &HostRuntime,
    request: &Request,
    number: usize,
    attribute: &Attribute,
) -> io::Result<()> {
    let described = Described {
        id: attribute.id,
        data_type: attribute.data_type,
        value: request.text(attribute.value),
        issuer: attribute.issuer.map(|issuer| request.text(issuer)),
    };
    let included = if attribute.included {
        ", included in results"
    } else {
        ""
    };
    println!(rt; "  attribute {number}: {described}{included}")
}

fn print_references(rt: &HostRuntime, request: &Request, references: &[Span]) -> io::Result<()> {
    for (number, reference) in references.iter().enumerate() {
        print!(rt; "reference {number}: tags")?;
        for tag in request.tags(*reference) {
            print!(rt; " {tag}")?;
        }
        rt.println("")?;
    }
    Ok(())
}
