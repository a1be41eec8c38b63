//! The lines of `produce`, by their forms.

ghost use Rattle.std.specs.Prelude.{◌≡◌, ◌<◌, ◌∷◌, length, IfOk};
ghost use Rattle.dz_script.specs.Settings.{name_of};
ghost use Rattle.dz_produce.specs.Lines.{serial_of, label_of, coo_of, group_of, groups_of, catalog_of, node_from};
ghost use Rattle.dz_produce.specs.Lines.{node_of, drop_of, change_of, line_in, line_of};

use dz_member::{Node, Texts};
use dz_name::{KeptName, Label, Name, Octets, read_number};
use dz_script::Fields;
use dz_settings::read_word;
use std::alloc::{AllocError, Global};

/// A line that isn't skipped.
#[derive(Debug, Drop)]
pub(crate) enum Line {
    /// A catalog is begun: `catalog <apex> <serial>`.
    Catalog(Name, u32),
    /// A node is added: `member <label> <zone> <coo> <words ..>`.
    Member(Node),
    /// The node of a label is dropped: `drop <label>`.
    Drop(Label),
    /// The catalog is written, and changed: `change <serial>`.
    Change(u32),
}

/// Reads a line that isn't skipped, without its newline; none where it has none of the forms.
pub(crate) fn read_line(alloc: Global, text: &[u8]) -> Result<Option<Line>, AllocError>
    ensures { IfOk result (λ line. line ≡ line_of text.now) }
{
    read_fields(alloc, Fields::of(text, b' '))
}

/// Reads a line by its first field.
fn read_fields(alloc: Global, fields: Fields<'_>) -> Result<Option<Line>, AllocError>
    ensures { IfOk result (λ line. line ≡ line_in fields.entry) }
{
    let Some((word, fields)) = fields.split_first() else {
        return Ok(None);
    };
    if word == b"catalog".as_slice() {
        Ok(read_catalog(fields))
    } else if word == b"member".as_slice() {
        let node = read_node(alloc, fields)?;
        Ok(node.map(Line::Member))
    } else if word == b"drop".as_slice() {
        Ok(read_drop(fields))
    } else if word == b"change".as_slice() {
        Ok(read_change(fields))
    } else {
        Ok(None)
    }
}

/// `<apex> <serial>`
fn read_catalog(fields: Fields<'_>) -> Option<Line>
    ensures { result ≡ catalog_of fields.entry }
{
    let (apex, serial) = fields.two()?;
    let apex = read_name(apex)?;
    let serial = read_serial(serial)?;
    Some(Line::Catalog(apex, serial))
}

/// `<label>`
fn read_drop(fields: Fields<'_>) -> Option<Line>
    ensures { result ≡ drop_of fields.entry }
{
    let label = read_label(fields.one()?)?;
    Some(Line::Drop(label))
}

/// `<serial>`
fn read_change(fields: Fields<'_>) -> Option<Line>
    ensures { result ≡ change_of fields.entry }
{
    let serial = read_serial(fields.one()?)?;
    Some(Line::Change(serial))
}

/// `<label> <zone> <coo> <words ..>`
fn read_node(alloc: Global, fields: Fields<'_>) -> Result<Option<Node>, AllocError>
    ensures { IfOk result (λ node. node ≡ node_of fields.entry) }
{
    let Some((label, fields)) = fields.split_first() else {
        return Ok(None);
    };
    let Some((zone, fields)) = fields.split_first() else {
        return Ok(None);
    };
    match fields.split_first() {
        None => Ok(None),
        Some((coo, words)) => read_node_from(alloc, label, zone, coo, words),
    }
}

/// A node of these fields; none where a field is of another form.
fn read_node_from(
    alloc: Global,
    label: &[u8],
    zone: &[u8],
    coo: &[u8],
    words: Fields<'_>,
) -> Result<Option<Node>, AllocError>
    ensures { IfOk result (λ node. node ≡ node_from (label_of label.now) (name_of zone.now)
        (coo_of coo.now) (groups_of words.entry)) }
{
    let Some(label) = read_label(label) else {
        return Ok(None);
    };
    let Some(zone) = read_kept(alloc, zone)? else {
        return Ok(None);
    };
    let Some(coo) = read_coo(alloc, coo)? else {
        return Ok(None);
    };
    match read_groups(alloc, words)? {
        None => Ok(None),
        Some(groups) => Ok(Some(Node {
            label,
            zone,
            coo,
            groups,
        })),
    }
}

/// A serial (RFC 1982).
fn read_serial(text: &[u8]) -> Option<u32>
    ensures { result ≡ serial_of text.now }
{
    let serial = read_number(4_294_967_295, text)?;
    Some(serial as u32)
}

/// A name in master file form (RFC 1035 section 5.1).
fn read_name(text: &[u8]) -> Option<Name>
    ensures { result ≡ name_of text.now }
{
    Name::parse(text).ok()
}

/// A name that is kept.
fn read_kept(alloc: Global, text: &[u8]) -> Result<Option<KeptName>, AllocError>
    ensures { IfOk result (λ name. name ≡ name_of text.now) }
{
    match read_name(text) {
        None => Ok(None),
        Some(name) => Ok(Some(KeptName::of(alloc, &name.as_ref())?)),
    }
}

/// A label: a name of one label.
fn read_label(text: &[u8]) -> Option<Label>
    ensures { result ≡ label_of text.now }
{
    let name = read_name(text)?;
    if name.label_count() == 1 {
        name.first()
    } else {
        None
    }
}

/// A catalog, or `-` for none.
fn read_coo(alloc: Global, text: &[u8]) -> Result<Option<Option<KeptName>>, AllocError>
    ensures { IfOk result (λ coo. coo ≡ coo_of text.now) }
{
    if text == b"-".as_slice() {
        return Ok(Some(None));
    }
    match read_kept(alloc, text)? {
        None => Ok(None),
        Some(name) => Ok(Some(Some(name))),
    }
}

/// The groups of the words that are left.
fn read_groups(alloc: Global, words: Fields<'_>) -> Result<Option<Texts>, AllocError>
    ensures { IfOk result (λ groups. groups ≡ groups_of words.entry) }
{
    let mut groups = Vec::new(alloc);
    let mut words = words;
    'words: while let Some((word, rest)) = words.split_first() {
        match read_group(alloc, word)? {
            None => return Ok(None),
            Some(group) => groups.push(group)?,
        }
        words = rest;
    }
    Ok(Some(Texts::from_vec(groups)))
}

/// A word as a character string (RFC 1035 section 3.3).
fn read_group(alloc: Global, text: &[u8]) -> Result<Option<Octets>, AllocError>
    ensures { IfOk result (λ group. group ≡ group_of text.now) }
{
    match read_word(alloc, text)? {
        None => Ok(None),
        Some(word) => Ok(Some(string_of(alloc, word.as_slice())?)),
    }
}

/// Octets after their length.
fn string_of(alloc: Global, octets: &[u8]) -> Result<Octets, AllocError>
    requires { length octets.now < 256 }
    ensures { IfOk result (λ string. string ≡ length octets.now ∷ octets.now) }
{
    let mut string = Vec::with_capacity(alloc, octets.len() + 1)?;
    string.push(octets.len() as u8)?;
    string.extend_from_slice(octets)?;
    Ok(Octets::from_vec(string))
}
