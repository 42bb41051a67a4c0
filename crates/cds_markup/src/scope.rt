//! Names with their namespaces, and the rules of start tags (Namespaces in XML).

ghost use Rattle.std.specs.Prelude.{◌≡◌, ◌∷◌, Some, [], true, false, not, IfOk, OnOk};
ghost use Rattle.std.specs.List.{list_all, list_any};
ghost use Rattle.cds_markup.specs.Namespaces.{declares_default, declares_prefix, is_declaration, declaration, declarations, is_sound, declared_in, space_of, in_space, attr_name, with_value, named_attrs, same_qname, same_name, no_attr_twice, no_name_twice, tag_says};
ghost use Rattle.cds_markup.specs.Bytes.{scopes_in};
ghost use Rattle.cds_markup.specs.NamesSeen.{is_prefixed, has_seen, Sees};

use crate::namespace::Namespace;
use crate::prefixes::Scope;
use crate::tag::{Declaration, Open, QName, TagAttr};
use crate::{Attr, Attrs, Name};
use cds_base::{Mem, Sequence, Text};
use std::alloc::Global;
use std::collections::BTreeSet;

/// The namespace of the prefix `xml` (Namespaces in XML).
pub const XML_SPACE: &str = "http://www.w3.org/XML/1998/namespace";

/// The most attributes whose names are compared in pairs. The names of more are looked up, since a tag may have thousands.
const MOST_IN_PAIRS: usize = 32;

/// Names that were seen in a tag: the local names, each with its prefix or with its namespace. Before a namespace stands its hash,
/// which tells long namespaces apart without a look at their bytes.
type Seen<'a> = BTreeSet<(&'a str, (u64, &'a str))>;

/// Returns whether an attribute of this name declares the namespace of names without a prefix.
fn declares_default(name: &QName) -> bool
    ensures { result ≡ declares_default name.now }
{
    name.prefix.len() == 0 && name.local.as_str() == "xmlns"
}

/// Returns whether an attribute of this name declares a prefix.
fn declares_prefix(name: &QName) -> bool
    ensures { result ≡ declares_prefix name.now }
{
    name.prefix.as_str() == "xmlns"
}

/// Returns whether the attribute declares a namespace.
fn is_declaration(attr: &TagAttr) -> bool
    ensures { result ≡ is_declaration attr.now }
{
    declares_default(&attr.name) || declares_prefix(&attr.name)
}

/// Returns whether the attribute has a prefix and declares nothing. An element's other attributes are in no namespace.
fn is_prefixed(attr: &TagAttr) -> bool
    ensures { result ≡ is_prefixed attr.now }
{
    attr.name.prefix.len() != 0 && !declares_prefix(&attr.name)
}

/// Returns whether one of the attributes has a prefix and declares nothing.
fn has_prefixed(attrs: &[TagAttr]) -> bool
    ensures { result ≡ list_any is_prefixed attrs.now }
{
    attrs.iter().any(|attr| is_prefixed(attr))
}

/// Returns what the attribute declares.
fn declaration(alloc: Global, attr: &TagAttr) -> Result<Declaration, Mem>
    ensures { IfOk result (λ d. d ≡ declaration attr.now) }
{
    let prefix = if declares_default(&attr.name) {
        Text::from(String::new(alloc))
    } else {
        attr.name.local.copy(alloc)?
    };
    let space = Namespace::read(alloc, attr.value.as_str())?;
    Ok(Declaration { prefix, space })
}

/// Returns what these attributes declare.
pub fn declarations(alloc: Global, attrs: &[TagAttr]) -> Result<Scope, Mem>
    ensures { IfOk result (λ found. found ≡ declarations attrs.now) }
{
    let mut found = Sequence::new(alloc);
    for attr in attrs {
        if is_declaration(attr) {
            let one = declaration(alloc, attr)?;
            found.push(one)?;
        }
    }
    Scope::of(alloc, found)
}

/// Returns whether the declaration may be made. It may declare neither `xml` nor `xmlns`, nor a prefix as empty.
fn is_sound(declared: &Declaration) -> bool
    ensures { result ≡ is_sound declared.now }
{
    declared.prefix.as_str() != "xml"
        && declared.prefix.as_str() != "xmlns"
        && (declared.prefix.len() == 0 || declared.space.len() != 0)
}

/// Returns whether all these declarations may be made.
fn are_sound(found: &[Declaration]) -> bool
    ensures { result ≡ list_all is_sound found.now }
{
    found.iter().all(|d| is_sound(d))
}

/// Returns whether two names are written alike. Most have no prefix, so the local names are compared first.
fn same_qname(one: &QName, other: &QName) -> bool
    ensures { result ≡ same_qname one.now other.now }
{
    one.local.as_str() == other.local.as_str() && one.prefix.as_str() == other.prefix.as_str()
}

/// Returns whether two names are the same. Most are in no namespace, so the local names are compared first. Namespaces may be long
/// and differ at their ends, so their hashes are compared before them.
fn same_name(one: &Name, other: &Name) -> bool
    ensures { result ≡ same_name one.now other.now }
{
    one.local.as_str() == other.local.as_str()
        && one.space.hash() == other.space.hash()
        && one.space.as_str() == other.space.as_str()
}

/// Returns whether one of the others has the attribute's qualified name.
fn has_qname(attr: &TagAttr, others: &[TagAttr]) -> bool
    ensures { result ≡ list_any (λ b. same_qname attr.now.name b.name) others.now }
{
    others
        .iter()
        .any(|other| same_qname(&attr.name, &other.name))
}

/// Returns whether no qualified name comes twice. Each two are compared.
fn few_attrs_differ(attrs: &[TagAttr]) -> bool
    ensures { result ≡ no_attr_twice attrs.now }
{
    let mut left = attrs;
    while let Some((first, rest)) = left.split_first() {
        if has_qname(first, rest) {
            return false;
        }
        left = rest;
    }
    true
}

/// Adds a name with this prefix or namespace, and with this hash of it. Returns whether it was not seen before.
fn see<'a>(seen: &mut Seen<'a>, hash: u64, space: &'a str, local: &'a Text) -> Result<bool, Mem>
    ensures new { IfOk result (λ new. new ≡ not (has_seen seen.old hash space.now local.now)) }
    ensures seen { OnOk result (Sees seen.old seen.new hash space.now local.now) }
{
    let new = seen.insert((local.as_str(), (hash, space)))?;
    Ok(new)
}

/// Returns whether no qualified name comes twice. Each is looked up among those before it.
fn many_attrs_differ(alloc: Global, attrs: &[TagAttr]) -> Result<bool, Mem>
    ensures { IfOk result (λ found. found ≡ no_attr_twice attrs.now) }
{
    let mut seen = BTreeSet::new(alloc);
    for attr in attrs {
        let new = see(&mut seen, 0, attr.name.prefix.as_str(), &attr.name.local)?;
        if !new {
            return Ok(false);
        }
    }
    Ok(true)
}

/// Returns whether no qualified name comes twice.
fn no_attr_twice(alloc: Global, attrs: &[TagAttr]) -> Result<bool, Mem>
    ensures { IfOk result (λ found. found ≡ no_attr_twice attrs.now) }
{
    if attrs.len() <= MOST_IN_PAIRS {
        Ok(few_attrs_differ(attrs))
    } else {
        many_attrs_differ(alloc, attrs)
    }
}

/// Returns whether one of the others has the attribute's name.
fn has_name(attr: &Attr, others: &[Attr]) -> bool
    ensures { result ≡ list_any (λ b. same_name attr.now.name b.name) others.now }
{
    others
        .iter()
        .any(|other| same_name(&attr.name, &other.name))
}

/// Returns whether no name comes twice. Each two are compared.
fn few_names_differ(attrs: &[Attr]) -> bool
    ensures { result ≡ no_name_twice attrs.now }
{
    let mut left = attrs;
    while let Some((first, rest)) = left.split_first() {
        if has_name(first, rest) {
            return false;
        }
        left = rest;
    }
    true
}

/// Returns whether no name comes twice. Each is looked up among those before it.
fn many_names_differ(alloc: Global, attrs: &[Attr]) -> Result<bool, Mem>
    ensures { IfOk result (λ found. found ≡ no_name_twice attrs.now) }
{
    let mut seen = BTreeSet::new(alloc);
    for attr in attrs {
        let space = &attr.name.space;
        let new = see(&mut seen, space.hash(), space.as_str(), &attr.name.local)?;
        if !new {
            return Ok(false);
        }
    }
    Ok(true)
}

/// Returns whether no name comes twice. Unless a prefix is `used`, the names are in no namespace, and they are not compared once
/// more, since no qualified name comes twice.
fn no_name_twice(alloc: Global, used: bool, attrs: &[Attr]) -> Result<bool, Mem>
    requires { used ≡ false → no_name_twice attrs.now ≡ true }
    ensures { IfOk result (λ found. found ≡ no_name_twice attrs.now) }
{
    if !used {
        return Ok(true);
    }
    if attrs.len() <= MOST_IN_PAIRS {
        Ok(few_names_differ(attrs))
    } else {
        many_names_differ(alloc, attrs)
    }
}

/// Returns what the innermost open element that speaks of a prefix says of it.
fn declared_in(opens: &[Open], prefix: &Text) -> Result<Option<Namespace>, Mem>
    ensures { IfOk result (λ space. space ≡ declared_in (scopes_in opens.now) prefix.now) }
{
    for open in opens {
        let found = open.declared.declared(prefix)?;
        if found.is_some() {
            return Ok(found);
        }
    }
    Ok(None)
}

/// Returns the namespace of a prefix, or `None` if it is not declared.
fn space_of(
    alloc: Global,
    opens: &[Open],
    inner: &Scope,
    prefix: &Text,
) -> Result<Option<Namespace>, Mem>
    ensures { IfOk result (λ space. space ≡ space_of (inner.now ∷ scopes_in opens.now) prefix.now) }
{
    if prefix.as_str() == "xml" {
        let space = Namespace::read(alloc, XML_SPACE)?;
        return Ok(Some(space));
    }
    let found = inner.declared(prefix)?;
    if found.is_some() {
        return Ok(found);
    }
    let found = declared_in(opens, prefix)?;
    if found.is_some() {
        return Ok(found);
    }
    if prefix.len() == 0 {
        Ok(Some(Namespace::none()))
    } else {
        Ok(None)
    }
}

/// Returns the name with this prefix and local name, or `None` if the prefix is not declared.
fn name_in(
    alloc: Global,
    opens: &[Open],
    inner: &Scope,
    prefix: &Text,
    local: Text,
) -> Result<Option<Name>, Mem>
    ensures { IfOk result (λ found. found ≡ in_space local (space_of (inner.now ∷ scopes_in opens.now) prefix.now)) }
{
    let Some(space) = space_of(alloc, opens, inner, prefix)? else {
        return Ok(None);
    };
    Ok(Some(Name { space, local }))
}

/// Returns the name of an attribute, or `None` if its prefix is not declared.
fn attr_name(alloc: Global, opens: &[Open], inner: &Scope, name: QName) -> Result<Option<Name>, Mem>
    ensures { IfOk result (λ found. found ≡ attr_name (inner.now ∷ scopes_in opens.now) name) }
{
    if name.prefix.len() != 0 {
        let local = name.local;
        return name_in(alloc, opens, inner, &name.prefix, local);
    }
    Ok(Some(Name {
        space: Namespace::none(),
        local: name.local,
    }))
}

/// Returns an attribute with its name, or `None` if its prefix is not declared.
fn named_attr(
    alloc: Global,
    opens: &[Open],
    inner: &Scope,
    attr: TagAttr,
) -> Result<Option<Attr>, Mem>
    ensures { IfOk result (λ found. found ≡ with_value attr.value (attr_name (inner.now ∷ scopes_in opens.now) attr.name)) }
{
    let Some(name) = attr_name(alloc, opens, inner, attr.name)? else {
        return Ok(None);
    };
    Ok(Some(Attr {
        name,
        value: attr.value,
    }))
}

/// Returns an attribute whose name has no prefix, and so is in no namespace.
fn plain_attr(attr: TagAttr) -> Attr
    ensures { Some result ≡ with_value attr.value (in_space attr.name.local (Some [])) }
{
    let TagAttr { name, value } = attr;
    let name = Name {
        space: Namespace::none(),
        local: name.local,
    };
    Attr { name, value }
}

/// Returns the attributes without those that declare namespaces, or `None` if a prefix is not declared.
fn named_attrs(
    alloc: Global,
    opens: &[Open],
    inner: &Scope,
    attrs: Sequence<TagAttr>,
) -> Result<Option<Attrs>, Mem>
    ensures { IfOk result (λ found. found ≡ named_attrs (inner.now ∷ scopes_in opens.now) attrs) }
{
    let room = attrs.len().saturating_sub(inner.as_slice().len());
    let mut found = Attrs::from(Vec::with_capacity(alloc, room)?);
    for attr in attrs.into_vec() {
        if is_declaration(&attr) {
            continue;
        }
        if attr.name.prefix.len() == 0 {
            found.push(plain_attr(attr))?;
            continue;
        }
        let Some(named) = named_attr(alloc, opens, inner, attr)? else {
            return Ok(None);
        };
        found.push(named)?;
    }
    Ok(Some(found))
}

/// Returns what a start tag says: the element's name and its attributes. The tag has this prefix, this local name and these
/// attributes, and declares `inner`. The elements `opens` are open around it. Returns `None` if the tag breaks a rule (Namespaces
/// in XML).
pub fn tag_says(
    alloc: Global,
    opens: &[Open],
    inner: &Scope,
    prefix: &Text,
    local: Text,
    attrs: Sequence<TagAttr>,
) -> Result<Option<(Name, Attrs)>, Mem>
    requires { inner.now ≡ declarations attrs }
    ensures { IfOk result (λ said. said ≡ tag_says (scopes_in opens.now) (record { name = record { prefix = prefix.now; local = local }; attrs = attrs })) }
{
    if !are_sound(inner.as_slice()) || !no_attr_twice(alloc, attrs.as_slice())? {
        return Ok(None);
    }
    let used = has_prefixed(attrs.as_slice());
    let Some(name) = name_in(alloc, opens, inner, prefix, local)? else {
        return Ok(None);
    };
    let Some(attrs) = named_attrs(alloc, opens, inner, attrs)? else {
        return Ok(None);
    };
    if !no_name_twice(alloc, used, attrs.as_slice())? {
        return Ok(None);
    }
    Ok(Some((name, attrs)))
}
