//! A catalog that is being made.

ghost use Rattle.std.specs.Prelude.{◌≡◌, ◌&&◌, [], true, false, not, is_some, Some, None, MatchOption, IfOk, OnOk};
ghost use Rattle.std.specs.Prelude.{if◌then◌else◌};
ghost use Rattle.std.specs.Option.{option_copied};
ghost use Rattle.dz_xfr.specs.Apex.{held_serial};
ghost use Rattle.dz_producer.specs.Amended.{IsCatalog, amend_fault};
ghost use Rattle.dz_producer.specs.Draft.{IsHeld};
ghost use Rattle.dz_produce.specs.Producing.{is_faulty, text_of, begun, with_member, without, changed, may_drop};
ghost use Rattle.dz_produce.specs.inner.Changes.{Begins};
ghost use Rattle.dz_produce.specs.inner.Makings.{IsDrafted, IsMade, IsSound, ProducesSome, making_of};

use crate::change::Change;
use crate::saying::hex_line;
use crate::stream::stream_of;
use dz_member::Node;
use dz_name::{Label, Name};
use dz_producer::{Amended, Draft, ProduceError, Verdict, produce};
use dz_serial::newer;
use dz_zone::Version;
use std::alloc::{AllocError, Global};
use std::marker::Model;

/// A catalog that is being made, without a fault so far.
#[derive(Drop)]
pub(crate) struct Making {
    apex: Name,
    serial: u32,
    /// None where it is the first.
    change: Option<Change>,
    added: Vec<Node>,
    /// What is kept of the nodes that stay and of those that are added. Where there is none, it is made when it is
    /// needed.
    draft: Option<Draft>,
}

impl Model for Making {
    ghost use Rattle.dz_produce.specs.Producing.{Making};
    ghost use Rattle.dz_produce.specs.inner.Makings.{IsMaking, making_of};

    ghost Value = { Making };

    ghost view = { λ m. making_of m.apex m.serial m.change m.added.items };

    ghost invariant = { λ m. IsMaking (making_of m.apex m.serial m.change m.added.items) m.draft };
}

/// What was made: a version, and its line.
#[derive(Drop)]
struct Made {
    version: Version,
    line: Vec<u8>,
}

impl Making {
    /// Begins a catalog; none where the apex leaves no room for its version.
    pub(crate) fn begin(
        alloc: Global,
        apex: Name,
        serial: u32,
    ) -> Result<Option<Making>, AllocError>
        ensures { IfOk result (λ m. MatchOption m (is_faulty (begun apex serial) ≡ true)
            (λ m. (m ≡ begun apex serial) × (is_faulty (begun apex serial) ≡ false))) }
    {
        if !is_producible(alloc, &apex, serial)? {
            return Ok(None);
        }
        Ok(Some(Making {
            apex,
            serial,
            change: None,
            added: Vec::new(alloc),
            draft: None,
        }))
    }

    /// Adds a node where that is no fault: whether it was added.
    pub(crate) fn add(&mut self, alloc: Global, node: Node) -> Result<bool, AllocError>
        ensures good { IfOk result (λ good. good ≡ not (is_faulty (with_member self.old node))) }
        ensures new { IfOk result (λ good. self.new
            ≡ (if good then with_member self.old node else self.old)) }
    {
        let mut draft = self.take_draft(alloc)?;
        match draft.add(alloc, &self.apex, &node)? {
            Verdict::Faulty => Ok(false),
            Verdict::Fine => {
                self.push(node, draft)?;
                Ok(true)
            }
            Verdict::Unsure => self.push_or_pop(alloc, node, draft),
        }
    }

    /// Takes the draft, which is made where there is none.
    fn take_draft(&mut self, alloc: Global) -> Result<Draft, AllocError>
        ensures sound { IsSound self.old }
        ensures drafted { IfOk result (IsDrafted self.old) }
        ensures same { self.new ≡ self.old }
    {
        match self.draft.take() {
            Some(draft) => Ok(draft),
            None => draft_of(
                alloc,
                &self.apex,
                self.change.as_ref(),
                self.added.as_slice(),
            ),
        }
    }

    /// Adds a node that is no fault, with the draft of all.
    fn push(&mut self, node: Node, draft: Draft) -> Result<(), AllocError>
        requires held { IsHeld node }
        requires faultless { is_faulty (with_member self.old node) ≡ false }
        requires drafted { IsDrafted (with_member self.old node) draft }
        ensures { OnOk result (self.new ≡ with_member self.old node) }
    {
        self.draft = None;
        self.added.push(node)?;
        self.draft = Some(draft);
        Ok(())
    }

    /// Adds a node where the catalog can be made with it, with the draft of all.
    fn push_or_pop(&mut self, alloc: Global, node: Node, draft: Draft) -> Result<bool, AllocError>
        requires held { IsHeld node }
        requires drafted { IsDrafted (with_member self.old node) draft }
        ensures good { IfOk result (λ good. good ≡ not (is_faulty (with_member self.old node))) }
        ensures new { IfOk result (λ good. self.new
            ≡ (if good then with_member self.old node else self.old)) }
    {
        self.draft = None;
        self.added.push(node)?;
        let made = make(
            alloc,
            &self.apex,
            self.serial,
            self.change.as_ref(),
            self.added.as_slice(),
        );
        match made {
            Ok(Some(_)) => {
                self.draft = Some(draft);
                Ok(true)
            }
            Ok(None) => {
                self.added.pop();
                Ok(false)
            }
            Err(error) => {
                self.added.pop();
                Err(error)
            }
        }
    }

    /// Drops the node of a label where that is no fault, before nodes are added: whether it was dropped.
    pub(crate) fn drop_label(&mut self, alloc: Global, label: Label) -> Result<bool, AllocError>
        ensures good { IfOk result (λ good. good
            ≡ (may_drop self.old && not (is_faulty (without self.old label)))) }
        ensures new { IfOk result (λ good. self.new
            ≡ (if good then without self.old label else self.old)) }
    {
        if !self.added.is_empty() {
            return Ok(false);
        }
        self.draft = None;
        let Some(change) = &mut self.change else {
            return Ok(false);
        };
        change.drop_label(alloc, self.serial, label)
    }

    /// The line of the catalog.
    pub(crate) fn line(&self, alloc: Global) -> Result<Vec<u8>, AllocError>
        ensures { IfOk result (λ line. line.items ≡ text_of self.now) }
    {
        Ok(self.made(alloc)?.line)
    }

    /// Begins a change where its serial is newer and it has no other fault: the line of the catalog, and whether it has
    /// none.
    pub(crate) fn change(
        &mut self,
        alloc: Global,
        serial: u32,
    ) -> Result<(Vec<u8>, bool), AllocError>
        ensures line { IfOk result (λ r. r.0.items ≡ text_of self.old) }
        ensures good { IfOk result (λ r. r.1 ≡ not (is_faulty (changed self.old serial))) }
        ensures new { IfOk result (λ r. self.new
            ≡ (if r.1 then changed self.old serial else self.old)) }
    {
        let Made { version, line } = self.made(alloc)?;
        match change_of(alloc, self.serial, version, serial)? {
            None => Ok((line, false)),
            Some(change) => {
                self.serial = serial;
                self.change = Some(change);
                self.added.clear();
                self.draft = None;
                Ok((line, true))
            }
        }
    }

    /// The version and its line; the catalog has no fault.
    fn made(&self, alloc: Global) -> Result<Made, AllocError>
        ensures made { IfOk result (λ made. IsMade self.now made.version made.line.items) }
        ensures apex { IfOk result (λ made. made.version.apex ≡ self.now.apex) }
    {
        let made = make(
            alloc,
            &self.apex,
            self.serial,
            self.change.as_ref(),
            self.added.as_slice(),
        )?;
        match made {
            Some(made) => Ok(made),
            None => unreachable!(),
        }
    }
}

/// A change of a version that has this serial; none where the new serial isn't newer, or it has another fault.
fn change_of(
    alloc: Global,
    before: u32,
    version: Version,
    serial: u32,
) -> Result<Option<Change>, AllocError>
    requires catalog { IsCatalog version }
    requires serial { held_serial version ≡ before }
    ensures { IfOk result (λ change. MatchOption change
        (is_some (amend_fault version serial [] []) ≡ true) (Begins version serial)) }
{
    if !newer(before, serial) {
        return Ok(None);
    }
    let change = Change::new(alloc, version)?;
    if change.is_faultless(alloc, serial)? {
        Ok(Some(change))
    } else {
        Ok(None)
    }
}

/// A draft of the nodes that stay and of those that are added.
fn draft_of(
    alloc: Global,
    apex: &Name,
    change: Option<&Change>,
    added: &[Node],
) -> Result<Draft, AllocError>
    ensures { IfOk result (IsDrafted
        (making_of apex.now 0 (option_copied change.entry) added.now)) }
{
    let mut draft = draft_before(alloc, change)?;
    'added: for node in added {
        draft.put(node)?;
        draft.spend(apex, node);
    }
    Ok(draft)
}

/// A draft of the nodes that stay.
fn draft_before(alloc: Global, change: Option<&Change>) -> Result<Draft, AllocError>
    ensures { IfOk result (IsDrafted (making_of [] 0 (option_copied change.entry) [])) }
{
    match change {
        None => Ok(Draft::new(alloc, 0)),
        Some(change) => change.draft(alloc),
    }
}

/// Makes a catalog; none where it has a fault.
fn make(
    alloc: Global,
    apex: &Name,
    serial: u32,
    change: Option<&Change>,
    added: &[Node],
) -> Result<Option<Made>, AllocError>
    ensures { let m = making_of apex.now serial (option_copied change.entry) added.now
        in IfOk result (λ made. MatchOption made (is_faulty m ≡ true)
        (λ made. IsMade m made.version made.line.items)) }
{
    match change {
        None => make_whole(alloc, apex, serial, added),
        Some(change) => make_difference(alloc, apex, serial, change, added),
    }
}

/// Makes a catalog of nodes alone.
fn make_whole(
    alloc: Global,
    apex: &Name,
    serial: u32,
    added: &[Node],
) -> Result<Option<Made>, AllocError>
    ensures { let m = making_of apex.now serial None added.now
        in IfOk result (λ made. MatchOption made (is_faulty m ≡ true)
        (λ made. IsMade m made.version made.line.items)) }
{
    match produced(alloc, apex, serial, added)? {
        None => Ok(None),
        Some(version) => {
            let stream = stream_of(alloc, &version)?;
            let line = hex_line(alloc, b"axfr ", stream.as_slice())?;
            Ok(Some(Made { version, line }))
        }
    }
}

/// Makes a catalog of the one before.
fn make_difference(
    alloc: Global,
    apex: &Name,
    serial: u32,
    change: &Change,
    added: &[Node],
) -> Result<Option<Made>, AllocError>
    ensures { let m = making_of apex.now serial (Some change.now) added.now
        in IfOk result (λ made. MatchOption made (is_faulty m ≡ true)
        (λ made. IsMade m made.version made.line.items)) }
{
    match change.amended(alloc, serial, added)? {
        None => Ok(None),
        Some(Amended { version, octets }) => {
            let line = hex_line(alloc, b"ixfr ", octets.as_slice())?;
            Ok(Some(Made { version, line }))
        }
    }
}

/// Whether the catalog without nodes has no fault.
fn is_producible(alloc: Global, apex: &Name, serial: u32) -> Result<bool, AllocError>
    ensures { IfOk result (λ good. good ≡ not (is_faulty (begun apex.now serial))) }
{
    let version = produced(alloc, apex, serial, &[])?;
    Ok(version.is_some())
}

/// The catalog of nodes alone; none where they have a fault.
fn produced(
    alloc: Global,
    apex: &Name,
    serial: u32,
    nodes: &[Node],
) -> Result<Option<Version>, AllocError>
    ensures { IfOk result (ProducesSome apex.now serial nodes.now) }
{
    match produce(alloc, apex, serial, nodes) {
        Ok(version) => Ok(Some(version)),
        Err(ProduceError::Fault(_)) => Ok(None),
        Err(ProduceError::OutOfMemory) => Err(AllocError),
    }
}
