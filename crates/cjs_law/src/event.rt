//! Events of the walk.
use text::Place;

/// What happens at a row that the walk comes to, as a value, since the laws speak of lists of events. `Replace` clears
/// the re-exports before it adds its own.
#[derive(Clone, Copy)]
pub enum Event {
    Bind { name: Place, value: Place },
    Export(Place),
    Unsafe(Place),
    Reexport(Place),
    Replace(Place),
}
