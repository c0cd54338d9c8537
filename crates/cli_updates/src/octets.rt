//! How many octets the items of an update add to the body that has them.

ghost use Rattle.std.specs.Prelude.{◌≡◌, IfOk};
ghost use Rattle.update_lines.specs.Reading.{no_items};
ghost use Rattle.cli_updates.specs.Octets.{bare_length, capped, added, one_test, one_operation, test_octets, operation_octets, tests_octets};
ghost use Rattle.cli_updates.specs.Slots.{lent};

use grant_policy::Identifier;
use std::alloc::{AllocError, Global};
use wire_json::update_text;
use zone_core::{Operation, Prerequisite, Update};

/// By what the octets of items are counted.
#[derive(Clone, Copy)]
pub(crate) struct Scale<'a> {
    /// The identifier of a body.
    id: &'a Identifier,
    /// The octets of the body without items.
    bare: usize,
    ghost is_bare: { bare ≡ bare_length id.now },
}

/// Octets are counted up to 65,535.
fn capped(octets: usize) -> u16
    ensures { result ≡ capped octets }
{
    if octets < 65_535 {
        octets as u16
    } else {
        u16::MAX
    }
}

/// An update of one prerequisite. The only error is out of memory.
fn one_test(alloc: Global, test: &Prerequisite) -> Result<Update, AllocError>
    ensures { IfOk result (λ update. update ≡ one_test test.now) }
{
    let mut tests = Vec::new(alloc);
    tests.push(test.try_copy(alloc)?)?;
    let Ok(update) = Update::build(tests, Vec::new(alloc)) else {
        unreachable!()
    };
    Ok(update)
}

/// An update of one operation. The only error is out of memory.
fn one_operation(alloc: Global, operation: &Operation) -> Result<Update, AllocError>
    ensures { IfOk result (λ update. update ≡ one_operation operation.now) }
{
    let mut operations = Vec::new(alloc);
    operations.push(operation.try_copy(alloc)?)?;
    let Ok(update) = Update::build(Vec::new(alloc), operations) else {
        unreachable!()
    };
    Ok(update)
}

/// An update without items.
fn no_items(alloc: Global) -> Update
    ensures { result ≡ no_items }
{
    let Ok(update) = Update::build(Vec::new(alloc), Vec::new(alloc)) else {
        unreachable!()
    };
    update
}

impl<'a> Scale<'a> {
    /// That of the bodies of an identifier. The only error is out of memory.
    pub fn new(alloc: Global, id: &'a Identifier) -> Result<Scale<'a>, AllocError>
        ensures { IfOk result (λ scale. scale.id.now ≡ id.now) }
    {
        let bare = update_text(alloc, id, &no_items(alloc))?.len();
        Ok(Scale { id, bare })
    }

    /// The octets of the body without items.
    pub fn frame(&self) -> u16
        ensures { result ≡ capped (bare_length self.now.id.now) }
    {
        capped(self.bare)
    }

    /// What an update adds to the body without items, and a comma. The only error is out of memory.
    fn added(&self, alloc: Global, update: &Update) -> Result<u16, AllocError>
        ensures { IfOk result (λ octets. octets ≡ added self.now.id.now update.now) }
    {
        let octets = update_text(alloc, self.id, update)?.len();
        Ok(capped(octets.saturating_sub(self.bare) + 1))
    }

    /// What an operation adds. The only error is out of memory.
    pub fn operation(&self, alloc: Global, operation: &Operation) -> Result<u16, AllocError>
        ensures { IfOk result (λ octets. octets ≡ operation_octets self.now.id.now operation.now) }
    {
        self.added(alloc, &one_operation(alloc, operation)?)
    }

    /// What a prerequisite adds. The only error is out of memory.
    fn test(&self, alloc: Global, test: &Prerequisite) -> Result<u16, AllocError>
        ensures { IfOk result (λ octets. octets ≡ test_octets self.now.id.now test.now) }
    {
        self.added(alloc, &one_test(alloc, test)?)
    }

    /// What prerequisites add. The only error is out of memory.
    pub fn tests(&self, alloc: Global, tests: &[&Prerequisite]) -> Result<u16, AllocError>
        ensures { IfOk result (λ octets. octets ≡ tests_octets self.now.id.now (lent tests.now)) }
    {
        let mut octets: u16 = 0;
        for test in tests {
            octets = octets.saturating_add(self.test(alloc, test)?);
        }
        Ok(octets)
    }
}
