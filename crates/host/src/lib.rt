//! Hosts: what modules there are, and where their specifiers lead. docs/HOSTS.md defines them.
#![tactic(auto)]

mod refusal;

ghost use Rattle.std.specs.Prelude.{◌≡◌};
ghost use Rattle.host.specs.Answer.{IsBlockAnswer, lookup_answer};
ghost use Rattle.host.specs.Meaning.{LeadsInside, Meaning};

pub use refusal::HostFault;

/// A host of modules, whose blocks outlive it. All that it is asked is answered by its meaning, which never changes.
pub trait Host<'a> {
    ghost meaning: { Self → Meaning };

    /// How many modules there are.
    fn count(&self) -> u32
        ensures { result ≡ (meaning self.now).count };

    /// The block of a module.
    fn block(&self, module: u32) -> Result<&'a [u8], HostFault>
        ensures { IsBlockAnswer (meaning self.now) «module» result };

    /// Where a specifier of a module leads. The host may keep notes of the lookup.
    fn locate(&mut self, module: u32, specifier: &[u8]) -> Result<Option<u32>, HostFault>
        ensures answer { result ≡ lookup_answer (meaning self.old) «module» specifier.now }
        ensures same_meaning { meaning self.new ≡ meaning self.old };

    ghost leads_inside: { (host : Self) → LeadsInside (meaning host) };
}
