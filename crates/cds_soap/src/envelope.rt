//! Finds the element in an envelope.

ghost use Rattle.std.specs.Prelude.{◌≡◌, ◌∷◌, [], MatchOption, option_copied};
ghost use Rattle.std.specs.Option.{option_and_then};
ghost use Rattle.cds_markup.specs.Children.{nodes_in, elements_in, only_of, is_named};
ghost use Rattle.cds_soap.specs.Envelope.{envelope_space, where_of_envelope, behind_header, body_among, body_of, only_inside, in_envelope};

use cds_markup::{Element, Node};

/// Returns the first element among nodes, and the nodes after it.
fn first_element(nodes: &[Node]) -> Option<(&Element, &[Node])>
    ensures { MatchOption result (elements_in nodes.now ≡ []) (λ found. elements_in nodes.now ≡ found.0.now ∷ elements_in found.1.now) }
{
    let mut rest = nodes;
    while let Some((node, more)) = rest.split_first() {
        match node {
            Node::Child(element) => return Some((element, more)),
            Node::Text(_) => rest = more,
        }
    }
    None
}

/// Returns the one element among nodes.
fn only_element(nodes: &[Node]) -> Option<&Element>
    ensures { option_copied result ≡ only_of (elements_in nodes.now) }
{
    match first_element(nodes) {
        None => None,
        Some((element, rest)) => match first_element(rest) {
            None => Some(element),
            Some(_) => None,
        },
    }
}

/// Returns whether an element has this name in the namespace of envelopes.
#[tactic(auto, unfolding(crate::specs::Envelope::envelope_space))]
pub fn is_of_envelope(element: &Element, local: &str) -> bool
    ensures { result ≡ is_named envelope_space local.now element.now }
{
    element.is_named("http://schemas.xmlsoap.org/soap/envelope/", local)
}

/// Returns the element, if it has this name in the namespace of envelopes.
pub fn where_of_envelope<'a>(element: &'a Element, local: &str) -> Option<&'a Element>
    ensures { option_copied result ≡ where_of_envelope local.now element.now }
{
    if is_of_envelope(element, local) {
        Some(element)
    } else {
        None
    }
}

/// Returns the Body, if it comes after a Header.
fn header_and_body<'a>(header: &Element, body: &'a Element) -> Option<&'a Element>
    ensures { option_copied result ≡ behind_header header.now body.now }
{
    if is_of_envelope(header, "Header") {
        where_of_envelope(body, "Body")
    } else {
        None
    }
}

/// Returns the Body after a Header, if it is the one element there.
fn behind_header<'a>(header: &Element, rest: &'a [Node]) -> Option<&'a Element>
    ensures { option_copied result ≡ option_and_then (behind_header header.now) (only_of (elements_in rest.now)) }
{
    match only_element(rest) {
        Some(body) => header_and_body(header, body),
        None => None,
    }
}

/// Returns the Body among the nodes of an envelope.
fn body_among(nodes: &[Node]) -> Option<&Element>
    ensures { option_copied result ≡ body_among (elements_in nodes.now) }
{
    match first_element(nodes) {
        None => None,
        Some((first, rest)) => match first_element(rest) {
            None => where_of_envelope(first, "Body"),
            Some(_) => behind_header(first, rest),
        },
    }
}

/// Returns the Body of an envelope.
fn body_of(element: &Element) -> Option<&Element>
    ensures { option_copied result ≡ body_of element.now }
{
    if is_of_envelope(element, "Envelope") {
        body_among(element.children.as_slice())
    } else {
        None
    }
}

/// Returns the one element in the Body of an envelope. `None` comes if the given element is no envelope, or if its Body
/// does not have exactly one element.
#[tactic(auto, unfolding(crate::specs::Envelope::in_envelope))]
pub fn in_envelope(element: &Element) -> Option<&Element>
    ensures { option_copied result ≡ in_envelope element.now }
{
    match body_of(element) {
        Some(body) => only_element(body.children.as_slice()),
        None => None,
    }
}
