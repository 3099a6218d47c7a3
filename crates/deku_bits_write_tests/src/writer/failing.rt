//! Writes to a sink that counts its calls, and that may fail in the middle.

ghost use Rattle.deku_bits.specs.Devices.{unknown_sink};

use crate::given::{Put, give_sink};
use deku_bits::ctx::Order::{Lsb0, Msb0};
use deku_bits::device::Sink;
use deku_testing::refusals::FAILED;
use deku_testing::same::same;
use std::io;
use std::io::{Error, ErrorKind, Seek, SeekFrom, Write};
use std::test::Fail;

// A sink that takes so many bytes, fails once, and then takes as many as there are. It counts the
// calls.
#[derive(Drop)]
struct Failing {
    good: usize,
    calls: usize,
}

impl Write for Failing {
    fn write(&mut self, _buf: &[u8]) -> io::Result<usize> {
        Err(Error::from(ErrorKind::Other))
    }

    fn flush(&mut self) -> io::Result<()> {
        Ok(())
    }
}

impl Seek for Failing {
    fn seek(&mut self, _to: SeekFrom) -> io::Result<u64> {
        Err(Error::from(ErrorKind::Other))
    }
}

// Nothing is known of it.
impl Sink for Failing {
    ghost known = { λ _. unknown_sink };

    fn give(&mut self, bytes: &[u8]) -> io::Result<()> {
        self.calls = self.calls.saturating_add(1);
        if bytes.len() > self.good {
            self.good = usize::MAX;
            return Err(Error::from(ErrorKind::Other));
        }
        self.good -= bytes.len();
        Ok(())
    }

    fn seek_to(&mut self, to: SeekFrom) -> io::Result<u64> {
        self.seek(to)
    }
}

// How many bytes are taken before a fault, the steps, and how many calls they make on the sink.
type Calls = (usize, &'static [Put], usize);

const CALLS: [Calls; 8] = [
    // The writer returns the fault again without asking its sink.
    (
        1,
        &[
            Put::Bits("111111111111", Ok(())),
            Put::Count(8),
            Put::Ordered(Lsb0, "00000", Err(FAILED)),
            Put::Count(8),
            Put::Left("", 0, Msb0),
            Put::Ordered(Msb0, "", Err(FAILED)),
            Put::Finalize(Err(FAILED)),
            Put::Kept(FAILED),
            Put::Count(8),
        ],
        2,
    ),
    // A seek that the sink refuses is kept too.
    (
        1,
        &[
            Put::Bytes(&[0xAA], Ok(())),
            Put::Seek(SeekFrom::Start(0), Err(ErrorKind::Other)),
            Put::Kept(FAILED),
        ],
        1,
    ),
    // Bytes, or a whole number, are given at once.
    (9, &[Put::Bytes(&[0xAA, 0xBB, 0xCC], Ok(()))], 1),
    (9, &[Put::Word(0x89ABCDEF, 32, Msb0, Ok(()))], 1),
    (9, &[Put::Word(0x89ABCDEF, 32, Lsb0, Ok(()))], 1),
    (16, &[Put::Word(u128::MAX, 128, Lsb0, Ok(()))], 1),
    // Onto bits of its order a word's bytes are given at once too; bits that fill no byte are not
    // given.
    (
        9,
        &[
            Put::Ordered(Lsb0, "101", Ok(())),
            Put::Word(0x89ABCDEF, 32, Lsb0, Ok(())),
            Put::Word(0x7, 4, Lsb0, Ok(())),
        ],
        1,
    ),
    // A word that does not fit is refused as a whole.
    (
        3,
        &[
            Put::Word(0x89ABCDEF, 32, Msb0, Err(FAILED)),
            Put::Kept(FAILED),
            Put::Count(0),
        ],
        1,
    ),
];

#[test]
fn asks_its_sink_once_for_each_run(rt: HostRuntime) -> Result<(), Fail> {
    for (case, (good, steps, calls)) in CALLS.iter().enumerate() {
        let failing = Failing {
            good: *good,
            calls: 0,
        };
        let sink = give_sink(&rt, rt.alloc(), case, failing, steps)?;
        same(&(case, steps.len()), &sink.calls, calls)?;
    }
    Ok(())
}
