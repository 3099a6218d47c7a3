//! Records of a plan's fields in a row, in bytes in memory.

ghost use Rattle.std.specs.Prelude.{◌≡◌, ◌*◌, ◌<◌, length};
ghost use Rattle.deku_bits.specs.ReaderCalls.{filling};
ghost use Rattle.deku_bits.specs.WriterCalls.{Finalizes};
ghost use Rattle.deku.specs.Composing.{Both};
ghost use Rattle.deku.specs.Wholes.{WritesOver};
ghost use Rattle.deku_fields.specs.ListCalls.{WritesItems};
ghost use Rattle.deku_plan.specs.Plans.{items};
ghost use Rattle.deku_plan.specs.Records.{records, ReadsAll, ReadsColumn, ReadsBackAll, FindsAll};

use crate::lay::laid_all;
use crate::plan::Plan;
use crate::plan::column::{column_from_first, cut_column};
use crate::plan::slice::{are_there, cut_records, read_from_first, write_from_first};
use deku::error::DekuError;
use deku_fields::Number;
use std::alloc::Global;

impl Plan {
    /// Reads this many records from bytes, one after the other, from the first bit on and without
    /// padding between them. The values of each are after those of the one before. It takes no
    /// memory.
    ///
    /// The caller's condition: `out` has one place for each field of each record.
    ///
    /// It does what `read_list_into` does for the fields of all records in a row, over a reader of
    /// the bytes: it reads the same values, and fails with the same errors. If it fails, the
    /// content of `out` is unspecified.
    ///
    /// ```text
    /// // two records of 4 and 12 bits, from 69 C0 FE DC
    /// let mut values = [Number::Unsigned(0); 4];
    /// plan.read_all(alloc, &bytes, 2, &mut values)?;         // 6, 0x9C0, 15 and 0xEDC
    /// ```
    pub fn read_all(
        &self,
        alloc: Global,
        bytes: &[u8],
        count: usize,
        out: &mut [Number],
    ) -> Result<(), DekuError>
        requires { length out.old ≡ count * length self.now }
        ensures meaning { ReadsAll (records count self.now) bytes.now (filling result out.new) }
        ensures values { ReadsBackAll (records count self.now) bytes.now (filling result out.new) }
        ensures found { FindsAll (records count self.now) bytes.now (filling result out.new) }
    {
        let fields = self.fields.as_slice();
        let steps = self.steps.as_slice();
        if self.straight && are_there(bytes, count, self.bits) {
            cut_records(bytes, count, self.short, fields, steps, out);
            return Ok(());
        }
        read_from_first(alloc, bytes, count, fields, steps, out)
    }

    /// Reads the values of one field from records in bytes, one value from each record: a column.
    /// The records are those that `read_all` reads. It takes memory for one record if `read_all`
    /// would use a reader.
    ///
    /// The caller's condition: `index` is that of a field. `out` has one place for each record.
    ///
    /// It reads the values that `read_all` reads of this field, and fails with the same errors, or
    /// with `Io(OutOfMemory)`. If it fails, the content of `out` is unspecified.
    ///
    /// ```text
    /// // two records of 4 and 12 bits, from 69 C0 FE DC
    /// let mut values = [Number::Unsigned(0); 2];
    /// plan.read_column(alloc, &bytes, 1, &mut values)?;      // 0x9C0 and 0xEDC
    /// ```
    pub fn read_column(
        &self,
        alloc: Global,
        bytes: &[u8],
        index: usize,
        out: &mut [Number],
    ) -> Result<(), DekuError>
        requires { index < length self.now }
        ensures { ReadsColumn self.now (length out.old) index bytes.now (filling result out.new) }
    {
        let fields = self.fields.as_slice();
        let steps = self.steps.as_slice();
        if self.straight && are_there(bytes, out.len(), self.bits) {
            let step = steps[index];
            cut_column(bytes, self.bits, step.first, &fields[index], step, out);
            return Ok(());
        }
        column_from_first(alloc, bytes, fields, steps, index, out)
    }

    /// Writes this many records to the start of a slice, one after the other and without padding
    /// between them, and fills the last byte with zeros. The values of each are after those of the
    /// one before. Returns how many bytes there are; those of the slice after them stay as they
    /// were. It takes no memory.
    ///
    /// The caller's condition: there is one value for each field of each record.
    ///
    /// It does what `write_list` does for the fields of all records with these values, over a
    /// writer of the slice, and then `finalize`: it writes the same bytes, and fails with the same
    /// errors. If it fails, the slice holds a beginning of the bytes, followed by what it held
    /// before.
    ///
    /// ```text
    /// // two records of 4 and 12 bits, with the values 6, 0x9C0, 15 and 0xEDC
    /// plan.write_all(2, &values, &mut out)?;              // 4, and `out` begins with 69 C0 FE DC
    /// ```
    pub fn write_all(
        &self,
        count: usize,
        values: &[Number],
        out: &mut [u8],
    ) -> Result<usize, DekuError>
        requires { length values.now ≡ count * length self.now }
        ensures { WritesOver (Both
            (WritesItems (items (records count self.now) values.now)) Finalizes) out.old result
            out.new }
    {
        let fields = self.fields.as_slice();
        let steps = self.steps.as_slice();
        let parts = self.parts.as_slice();
        let sizes = self.sizes.as_slice();
        match laid_all(
            out, self.short, count, self.bits, steps, parts, sizes, values,
        ) {
            Some(taken) => Ok(taken),
            None => write_from_first(out, count, fields, steps, values),
        }
    }
}
