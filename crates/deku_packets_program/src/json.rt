//! A packet as a JSON object.

use crate::members::{layer_members, member};
use crate::shown::{Shown, Verdict};
use crate::values::Value;
use deku_packets::layer::Placed;
use deku_packets::packet::Refusal;
use serde::{Described, Serialize, Serializer};

impl Described for Shown<'_> {}

/// The time, the lengths, the layers, whether it is written back as it was read, and what cannot be
/// read.
impl Serialize for Shown<'_> {
    fn serialize<S: Serializer>(&self, out: &mut S) -> Result<(), S::Error> {
        out.begin_map(None)?;
        member("seconds", Value::Number(self.captured.seconds as u64), out)?;
        let unit = if self.format.is_nano {
            "nanoseconds"
        } else {
            "microseconds"
        };
        member(unit, Value::Number(self.captured.fraction as u64), out)?;
        member("kept", Value::Number(self.captured.kept as u64), out)?;
        member("whole", Value::Number(self.captured.whole as u64), out)?;
        out.key("layers")?;
        layers(self, out)?;
        if let Some(verdict) = self.verdict {
            verdict_member(verdict, self.at, out)?;
        }
        if let Some(refusal) = self.packet.refusal {
            refusal_member(refusal, self.at, out)?;
        }
        out.end_map()
    }
}

// The layers, in order.
fn layers<S: Serializer>(shown: &Shown<'_>, out: &mut S) -> Result<(), S::Error> {
    out.begin_seq(None)?;
    for placed in &shown.packet.layers {
        layer(shown, placed, out)?;
    }
    out.end_seq()
}

// A layer: where it is in the file, and its fields.
fn layer<S: Serializer>(shown: &Shown<'_>, placed: &Placed, out: &mut S) -> Result<(), S::Error> {
    out.begin_map(None)?;
    layer_members(shown, placed, out)?;
    out.end_map()
}

// Whether the packet is written back as it was read.
fn verdict_member<S: Serializer>(
    verdict: Verdict,
    start: u64,
    out: &mut S,
) -> Result<(), S::Error> {
    match verdict {
        Verdict::Same => member("same", Value::Flag(true), out),
        Verdict::Differs(index) => {
            member("same", Value::Flag(false), out)?;
            let at = start.saturating_add(index as u64);
            member("differs_at", Value::Number(at), out)
        }
    }
}

// What cannot be read.
fn refusal_member<S: Serializer>(
    refusal: Refusal,
    start: u64,
    out: &mut S,
) -> Result<(), S::Error> {
    out.key("refused")?;
    out.begin_map(None)?;
    member("layer", Value::Text(refusal.layer), out)?;
    member("field", Value::Text(refusal.field), out)?;
    let at = start.saturating_add(refusal.at as u64);
    member("at", Value::Number(at), out)?;
    out.key("error")?;
    out.collect_str(&refusal.fault)?;
    out.end_map()
}
