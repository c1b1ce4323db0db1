//! A checked link shelf, and what it is asked.
ghost use Rattle.link_shelf.specs.Lawful.{Lawful};

use crate::check::is_link_shelf;
use crate::layout::{blocks, lookup, module_count};
use host::{Host, HostFault};
use text::Place;

/// The bytes of a link shelf. Only a check makes one, so unchecked bytes cannot be asked.
#[derive(Clone, Copy)]
pub struct LinkShelf<'a> {
    bytes: &'a [u8],
    ghost lawful: { Lawful bytes.now },
}

impl<'a> LinkShelf<'a> {
    ghost use Rattle.link_shelf.specs.FirstLink.{FirstLinkAnswers};
    ghost use Rattle.link_shelf.specs.Subject.{IsCheckOf, IsPlaceAnswer, shelf_bytes};

    /// Checks the bytes of a shelf. It reads nothing outside them.
    pub fn check(bytes: &'a [u8]) -> Result<Self, HostFault>
        ensures checked { IsCheckOf bytes.now result }
        ensures first { FirstLinkAnswers }
    {
        if is_link_shelf(bytes) {
            Ok(LinkShelf { bytes })
        } else {
            Err(HostFault::Shelf)
        }
    }

    /// The place of a module's block in the shelf.
    pub fn block_place(&self, module: u32) -> Result<Place, HostFault>
        ensures { IsPlaceAnswer (shelf_bytes self.now) «module» result }
    {
        if module < module_count(self.bytes) {
            Ok(blocks(self.bytes).place(module))
        } else {
            Err(HostFault::Beyond { module })
        }
    }
}

/// The answers are those of the shelf's bytes.
impl<'a> Host<'a> for LinkShelf<'a> {
    ghost use Rattle.std.specs.Prelude.{IfOk};
    ghost use Rattle.host.specs.Answer.{IsBlockAnswer};
    ghost use Rattle.shelf.specs.Pairs.{IsPartAt};
    ghost use Rattle.link_shelf.specs.Links.{block_place};
    ghost use Rattle.link_shelf.specs.Means.{means};
    ghost use Rattle.link_shelf.specs.Subject.{shelf_bytes};
    ghost use Rattle.link_shelf.specs.Inside.{leads_inside};

    ghost meaning = { λ shelf. means (shelf_bytes shelf) };

    fn count(&self) -> u32 {
        module_count(self.bytes)
    }

    fn block(&self, module: u32) -> Result<&'a [u8], HostFault>
        ensures answer { IsBlockAnswer (means (shelf_bytes self.now)) «module» result }
        ensures place { IfOk result (λ block. IsPartAt (shelf_bytes self.now) (block_place (shelf_bytes self.now) «module») block.now) }
    {
        Ok(self.block_place(module)?.part(self.bytes))
    }

    fn locate(&mut self, module: u32, specifier: &[u8]) -> Result<Option<u32>, HostFault> {
        if module >= module_count(self.bytes) {
            return Err(HostFault::Beyond { module });
        }
        Ok(lookup(self.bytes, module, specifier))
    }

    ghost leads_inside = { λ shelf from specifier to inside e. leads_inside (shelf_bytes shelf) shelf.lawful specifier from to e };
}
