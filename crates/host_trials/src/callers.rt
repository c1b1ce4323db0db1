//! Callers that know no more of a host than its trait.
ghost use Rattle.std.specs.Prelude.{◌≡◌};
ghost use Rattle.host_trials.specs.Chain.{IsNextBlock};

use host::{Host, HostFault};

/// The block of the module that a specifier leads to, or of the module itself where it leads nowhere. The block is kept
/// over the lookup.
pub(crate) fn next_block<'a, H: Host<'a>>(
    host: &mut H,
    module: u32,
    specifier: &[u8],
) -> Result<&'a [u8], HostFault>
    ensures block { IsNextBlock (H.meaning host.old) «module» specifier.now result }
    ensures kept { H.meaning host.new ≡ H.meaning host.old }
{
    let own = host.block(module)?;
    match host.locate(module, specifier)? {
        None => Ok(own),
        Some(next) => host.block(next),
    }
}
