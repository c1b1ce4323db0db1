//! A layer over any host, in which one specifier stands for another.
ghost use Rattle.std.specs.Prelude.{◌≡◌};
ghost use Rattle.host_trials.specs.Renamed.{renamed, renamed_meaning};

use host::{Host, HostFault};

/// A host in which the specifier `from` stands for `to`.
#[derive(Drop)]
pub(crate) struct Alias<'t, H> {
    pub(crate) below: H,
    pub(crate) from: &'t [u8],
    pub(crate) to: &'t [u8],
}

/// What is asked below for a specifier.
fn renamed_to<'b>(from: &'b [u8], to: &'b [u8], specifier: &'b [u8]) -> &'b [u8]
    ensures { result.now ≡ renamed from.now to.now specifier.now }
{
    if specifier == from { to } else { specifier }
}

/// The host below, with one specifier replaced.
impl<'a, 't, H: Host<'a>> Host<'a> for Alias<'t, H> {
    ghost meaning = { λ s. renamed_meaning s.from.now s.to.now (H.meaning s.below) };

    fn count(&self) -> u32 {
        self.below.count()
    }

    fn block(&self, module: u32) -> Result<&'a [u8], HostFault> {
        self.below.block(module)
    }

    fn locate(&mut self, module: u32, specifier: &[u8]) -> Result<Option<u32>, HostFault> {
        let specifier = renamed_to(self.from, self.to, specifier);
        self.below.locate(module, specifier)
    }

    ghost leads_inside = { λ s from specifier to inside e. H.leads_inside s.below from (renamed s.from.now s.to.now specifier) to inside e };
}
