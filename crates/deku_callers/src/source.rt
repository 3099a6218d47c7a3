//! What is left of a source after a record.

ghost use Rattle.std.specs.Prelude.{◌≡◌, Some, drop, IfOk, IfSome};
ghost use Rattle.deku.specs.Wholes.{Behind, ReadsOnce};
ghost use Rattle.deku_symmetry.specs.Symmetric.{IsSymmetric};

use deku::device::Source;
use deku::prelude::{DekuContainerRead, DekuError, DekuReader};
use deku_symmetry::Symmetric;
use deku_transport::udp::Udp;
use std::alloc::Global;

/// Reads the header of a datagram from the start of a source. Returns how many bits it has, and the
/// header. If the bytes of the source are known, the bits are 64, and those after the first eight
/// bytes are known afterwards: no byte is fetched too early. It fails as reading the header does.
///
/// ```text
/// let mut source = Cursor::new(bytes);
/// let (bits, header) = header_of(alloc, &mut source)?; // the source is at what the header carries
/// ```
pub fn header_of<R: Source>(alloc: Global, source: &mut R) -> Result<(usize, Udp), DekuError>
    ensures reads { ReadsOnce R.known (Behind 0 (⟦<Udp as DekuReader<()>>⟧.meaning tt)) source.old
        result source.new }
    ensures left { IfOk result (λ p. IfSome (R.known source.old).remaining
        (λ bytes. (p.0 ≡ 64) × ((R.known source.new).remaining ≡ Some (drop 8 bytes)))) }
{
    symmetric_law::<Udp>();
    Udp::from_reader(alloc, (source, 0))
}

// The law of symmetric types, for one type.
fn symmetric_law<T: Symmetric<()>>()
    ensures { IsSymmetric (λ v. T.Part.pieces v tt) T.Part.same (λ v. T.DekuWriter.meaning v tt)
        (T.DekuReader.meaning tt) }
{}
