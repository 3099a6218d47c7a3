//! Fields that are looked at once.

ghost use Rattle.std.specs.Prelude.{◌≡◌, ◌⊎◌, ◌↔◌, ◌∷◌, ℕ, ◌+◌};
ghost use Rattle.std.specs.Prelude.{◌*◌, ◌<◌, ◌≤◌, ◌^◌, All, List, [], map};
ghost use Rattle.std.specs.Prelude.{length, IsTrue, IfOk, IfErr, OnOk, IfSome, IsNone};
ghost use Rattle.std.specs.declared.io.ErrorKind.TheVariants.{OutOfMemory};
ghost use Rattle.deku_bits.specs.declared.error.DekuError.TheVariants.{Io};
ghost use Rattle.deku_bits.specs.declared.ctx.Order.{Order as FieldOrder};
ghost use Rattle.deku_bits.specs.Bits.{groups};
ghost use Rattle.deku_bits.specs.Pieces.{total, AlignedFrom};
ghost use Rattle.deku_bits.specs.Causes.{NoKind, WantsPlace, Caused};
ghost use Rattle.deku_bits.specs.ReaderCalls.{Reads, filling, source_of, Fetched, FetchedInTime};
ghost use Rattle.deku_bits.specs.ReaderCalls.{KeepsSourceStopped};
ghost use Rattle.deku_bits.specs.WriterCalls.{Writes, sink_of, KeepsSinkStopped};
ghost use Rattle.deku_fields.specs.Items.{field_shape, AlignedFields, IsAllowedField};
ghost use Rattle.deku_fields.specs.ListCalls.{ReadsFields, WritesItems};
ghost use Rattle.deku_fields.specs.Promise.{FindsAny, LeavesBehind, ReadsBack, ReadsWhereSound};
ghost use Rattle.deku_fields.specs.Promise.{ReadsWhereTold, WritesLaid, WritesWhereSound};
ghost use Rattle.deku_plan.specs.Laying.{IsShort};
ghost use Rattle.deku_plan.specs.Plans.{AreSteps, AreFirsts, IsHigh, IsStepOf, widths, items};
ghost use Rattle.deku_plan.specs.Plans.{IsFirstRejected, AreTooMany};
ghost use Rattle.deku_plan.specs.Records.{IsStraight};
ghost use Rattle.deku_plan.specs.Words.{AreNamed, AreWrong};

mod column;
mod read;
mod records;
mod slice;
mod write;

use crate::part::{Part, parts_of, sizes_of};
use crate::plan::read::read_steps;
use crate::plan::write::write_steps;
use crate::step::{Step, step_of};
use deku::ctx::Order;
use deku::device::{Sink, Source};
use deku::error::DekuError;
use deku::reader::Reader;
use deku::writer::Writer;
use deku_fields::{Field, Number, parse_field};
use std::alloc::Global;
use std::io::ErrorKind;
use std::marker::Model;

/// Fields whose layouts are looked at once, when it is made. In contracts a plan is its fields.
///
/// It reads and writes what `read_list_into` and `write_list` read and write for its fields, with
/// the same errors, and leaves the same. No layout of its fields is rejected.
#[derive(Debug, Drop)]
pub struct Plan {
    fields: Vec<Field>,
    steps: Vec<Step>,
    parts: Vec<Part>,
    sizes: Vec<usize>,
    bits: usize,
    aligned: bool,
    straight: bool,
    short: bool,
}

/// Why words make no plan.
#[derive(Debug, Clone, Copy, PartialEq, Eq)]
pub enum WrongWords {
    /// The word at this index names no field.
    NoField(usize),
    /// The layout of the field that the word at this index names is rejected, with this error.
    Rejected(usize, DekuError),
    /// A `usize` cannot count the bits, or there is no memory.
    Fault(DekuError),
}

impl Model for Plan {
    ghost use Rattle.std.specs.Prelude.{◌≡◌, ◌↔◌, List, map, IsTrue};
    ghost use Rattle.deku_fields.specs.declared.list.Field.{Field};

    ghost Value = { List Field };

    ghost use Rattle.deku_plan.specs.Known.{IsKnown};

    ghost view = { λ p. p.fields.items };

    ghost invariant = { IsKnown };
}

impl Plan {
    /// Makes a plan of fields.
    ///
    /// It fails for the first field whose layout is rejected, with the error of `write_list` for
    /// that; with `InvalidParam("count past usize")` if a `usize` cannot count the bits of the
    /// fields; and with `Io(OutOfMemory)` if there is no memory for it.
    ///
    /// ```text
    /// Plan::new(alloc, &[four, twelve])?                     // 4 and 12 bits
    /// ```
    pub fn new(alloc: Global, fields: &[Field]) -> Result<Plan, DekuError>
        ensures fields { IfOk result (λ plan. plan ≡ fields.now) }
        ensures allowed { IfOk result (λ plan. All IsAllowedField plan) }
        ensures counted { IfOk result (λ plan. total (map field_shape plan) < 2 ^ 64) }
        ensures refused { IfErr result (λ e. IsFirstRejected fields.now e
            ⊎ AreTooMany fields.now e ⊎ (e ≡ Io OutOfMemory)) }
    {
        let steps = steps_of(alloc, fields)?;
        let Some(bits) = bits_of(steps.as_slice()) else {
            return Err(DekuError::InvalidParam("count past usize"));
        };
        let aligned = are_aligned(fields, steps.as_slice());
        let straight = are_straight(fields, steps.as_slice());
        let short = are_short(fields, steps.as_slice());
        let parts = parts_of(alloc, steps.as_slice())?;
        let sizes = sizes_of(alloc, parts.as_slice())?;
        let Ok(fields) = Vec::from_slice(alloc, fields) else {
            return Err(DekuError::Io(ErrorKind::OutOfMemory));
        };
        Ok(Plan {
            fields,
            steps,
            parts,
            sizes,
            bits,
            aligned,
            straight,
            short,
        })
    }

    /// Makes a plan of the fields that words name, each as `parse_field` has them.
    ///
    /// It fails for the first word that names no field or one whose layout is rejected, with its
    /// index; and as `Plan::new` fails.
    ///
    /// ```text
    /// Plan::parse(alloc, &["u8,big,bits4", "u16"])?          // 4 and 16 bits
    /// Plan::parse(alloc, &["u8", "u8,bits9"])                // Rejected(1, ..)
    /// ```
    pub fn parse(alloc: Global, words: &[&str]) -> Result<Plan, WrongWords>
        ensures named { IfOk result (AreNamed words.now) }
        ensures wrong { IfErr result (AreWrong words.now) }
    {
        let mut fields: Vec<Field> = Vec::new(alloc);
        for (index, word) in words.iter().enumerate() {
            let Some(field) = parse_field(word) else {
                return Err(WrongWords::NoField(index));
            };
            if let Err(error) = step_of(&field, 0) {
                return Err(WrongWords::Rejected(index, error));
            }
            let Ok(()) = fields.push(field) else {
                return Err(WrongWords::Fault(DekuError::Io(ErrorKind::OutOfMemory)));
            };
        }
        match Plan::new(alloc, fields.as_slice()) {
            Ok(plan) => Ok(plan),
            Err(error) => Err(WrongWords::Fault(error)),
        }
    }

    /// The fields.
    ///
    /// ```text
    /// plan.fields()                                          // &[four, twelve]
    /// ```
    pub fn fields(&self) -> &[Field]
        ensures same { result.now ≡ self.now }
        ensures allowed { All IsAllowedField self.now }
    {
        self.fields.as_slice()
    }

    /// How many bits the fields have together.
    ///
    /// ```text
    /// plan.bits()                                            // 16
    /// ```
    pub fn bits(&self) -> usize
        ensures { result ≡ total (map field_shape self.now) }
    {
        self.bits
    }

    /// How many bytes the fields fill if they begin at one: those of `bits`, rounded up.
    ///
    /// ```text
    /// plan.bytes()                                           // 2
    /// ```
    pub fn bytes(&self) -> usize
        ensures { result ≡ groups (total (map field_shape self.now)) }
    {
        self.bits.div_ceil(8)
    }

    /// Whether the order of the fields changes only at byte boundaries. If so, they read back what
    /// was written with them.
    ///
    /// ```text
    /// plan.is_aligned()                                      // true
    /// ```
    pub fn is_aligned(&self) -> bool
        ensures { IsTrue result ↔ AlignedFields self.now }
    {
        self.aligned
    }

    /// Reads one value for each field, in order, into `out`. It takes no memory.
    ///
    /// The caller's condition: `out` has one place for each field.
    ///
    /// It does what `read_list_into` does for the fields: it reads the same values, fails with the
    /// same errors and leaves the same.
    ///
    /// ```text
    /// let mut values = [Number::Unsigned(0); 2];
    /// plan.read(&mut reader, &mut values)?;                  // 6 and 0x9C0, of 69 C0
    /// ```
    pub fn read<R: Source>(
        &self,
        reader: &mut Reader<R>,
        out: &mut [Number],
    ) -> Result<(), DekuError>
        requires { length out.old ≡ length self.now }
        ensures meaning { Reads R.known (ReadsFields self.now) reader.old (filling result out.new)
            reader.new }
        ensures values { ReadsWhereSound R.known (ReadsBack self.now) reader.old
            (filling result out.new) reader.new }
        ensures found { ReadsWhereTold R.known (FindsAny self.now) reader.old
            (filling result out.new) reader.new }
        ensures behind { LeavesBehind R.known self.now reader.old (filling result out.new)
            reader.new }
        ensures fetched { OnOk result (Fetched R.known (total (map field_shape self.now)) reader.old
            reader.new) }
        ensures early { FetchedInTime reader.old reader.new }
        ensures stopped { KeepsSourceStopped reader.old reader.new }
        ensures none { self.now ≡ [] → reader.new ≡ reader.old }
        ensures cause { Caused NoKind reader.old.state (R.known (source_of reader.old)).health
            result (R.known (source_of reader.new)).health }
    {
        let fields = self.fields.as_slice();
        read_steps(reader, fields, self.steps.as_slice(), out)
    }

    /// Writes one value for each field, in order, without padding. It takes no memory except what
    /// the sink takes.
    ///
    /// The caller's condition: there is one value for each field.
    ///
    /// It does what `write_list` does for the fields with these values: it writes the same bits,
    /// fails with the same errors and leaves the same.
    ///
    /// ```text
    /// let values = [Number::Unsigned(6), Number::Unsigned(0x9C0)];
    /// plan.write(&mut writer, &values)?;                     // the bytes 69 C0
    /// ```
    pub fn write<W: Sink>(&self, writer: &mut Writer<W>, values: &[Number]) -> Result<(), DekuError>
        requires { length values.now ≡ length self.now }
        ensures meaning { Writes W.known (WritesItems (items self.now values.now)) writer.old result
            writer.new }
        ensures laid_out { WritesWhereSound W.known (WritesLaid (items self.now values.now))
            writer.old result writer.new }
        ensures stopped { KeepsSinkStopped writer.old writer.new }
        ensures none { self.now ≡ [] → writer.new ≡ writer.old }
        ensures cause { Caused WantsPlace writer.old.state (W.known (sink_of writer.old)).health
            result (W.known (sink_of writer.new)).health }
    {
        let fields = self.fields.as_slice();
        write_steps(writer, fields, self.steps.as_slice(), values)
    }
}

// The steps of fields.
fn steps_of(alloc: Global, fields: &[Field]) -> Result<Vec<Step>, DekuError>
    ensures steps { IfOk result (λ steps. AreSteps fields.now steps.items) }
    ensures firsts { IfOk result (λ steps. widths steps.items < 2 ^ 64 → AreFirsts 0 steps.items) }
    ensures refused { IfErr result (λ e. IsFirstRejected fields.now e ⊎ (e ≡ Io OutOfMemory)) }
{
    let mut steps: Vec<Step> = Vec::new(alloc);
    let mut first: usize = 0;
    for field in fields {
        let step = step_of(field, first)?;
        let Ok(()) = steps.push(step) else {
            return Err(DekuError::Io(ErrorKind::OutOfMemory));
        };
        first = first.saturating_add(step.width);
    }
    Ok(steps)
}

// How many bits the steps have together, if a `usize` can count them.
fn bits_of(steps: &[Step]) -> Option<usize>
    ensures some { IfSome result (λ n. n ≡ widths steps.now) }
    ensures none { IsNone result → 2 ^ 64 ≤ widths steps.now }
{
    let mut bits: usize = 0;
    for step in steps {
        bits = bits.checked_add(step.width)?;
    }
    Some(bits)
}

// Whether the order changes only at byte boundaries.
fn are_aligned(fields: &[Field], steps: &[Step]) -> bool
    requires { AreSteps fields.now steps.now }
    ensures { IsTrue result ↔ AlignedFields fields.now }
{
    let (mut at, mut order) = (0, Order::Msb0);
    for (place, field) in fields.iter().enumerate() {
        let Some(next) = after(at, order, field.layout.order, steps[place].width) else {
            return false;
        };
        at = next.0;
        order = next.1;
    }
    true
}

// How many bits there are after the last byte boundary, and in which order, after one field more.
// `None` if the order changes inside a byte.
fn after(at: usize, before: Order, order: Order, width: usize) -> Option<(usize, Order)>
    requires inside { at < 8 }
    requires few { width ≤ 128 }
    ensures inside { IfSome result (λ next. next.0 < 8) }
    ensures some { IfSome result (λ next. (xs : List (FieldOrder × ℕ))
        → AlignedFrom at before ((order, width) ∷ xs) ↔ AlignedFrom next.0 next.1 xs) }
    ensures none { IsNone result → (xs : List (FieldOrder × ℕ))
        → AlignedFrom at before ((order, width) ∷ xs) → ⊥ }
{
    if width == 0 {
        return Some((at, before));
    }
    if at != 0 && order != before {
        return None;
    }
    Some(((at + width) % 8, order))
}

// Whether all fields are in `Msb0` and have at least one bit and at most 64.
fn are_straight(fields: &[Field], steps: &[Step]) -> bool
    requires { AreSteps fields.now steps.now }
    ensures { IsTrue result → All IsStraight fields.now }
{
    for (place, field) in fields.iter().enumerate() {
        if !is_straight(field, steps[place]) {
            return false;
        }
    }
    true
}

// Whether a field is in `Msb0` and has at least one bit and at most 64.
fn is_straight(field: &Field, step: Step) -> bool
    requires { IsStepOf field.now step }
    ensures { IsTrue result → IsStraight field.now }
{
    match field.layout.order {
        Order::Msb0 => step.width > 0 && step.width <= 64,
        Order::Lsb0 => false,
    }
}

// Whether all fields are unsigned, big and `Msb0`, and have at most 57 bits.
fn are_short(fields: &[Field], steps: &[Step]) -> bool
    requires { AreSteps fields.now steps.now }
    ensures high { IsTrue result → All IsHigh fields.now }
    ensures short { IsTrue result → All IsShort steps.now }
{
    for (place, field) in fields.iter().enumerate() {
        if !is_short(field, steps[place]) {
            return false;
        }
    }
    true
}

// Whether a field is unsigned, big and `Msb0`, and has at most 57 bits.
fn is_short(field: &Field, step: Step) -> bool
    requires { IsStepOf field.now step }
    ensures high { IsTrue result → IsHigh field.now }
    ensures short { IsTrue result → IsShort step }
{
    let _ = field;
    step.high && step.width <= 57
}
