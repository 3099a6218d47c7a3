//! The types that say what follows a head, while a part with one is made.

use crate::building::Builder;
use deku_markers::marker::Marker;
use deku_record_parts::part::Part;
use deku_texts::words;
use std::alloc::AllocError;

impl<'b, 'a> Builder<'b, 'a> {
    /// The type of this word for the field of this name, after a head, which is called by a name
    /// from now on.
    pub(crate) fn marked(
        &mut self,
        head: &mut Part<'a>,
        field: &'a str,
        word: &str,
    ) -> Result<Marker<'a>, AllocError> {
        let (parts, lent) = self.aliases(head, field)?;
        Ok(Marker {
            name: words::marker(self.arena, self.front, field, word)?,
            parts,
            lent,
            field,
        })
    }

    /// Adds a part with such a type.
    pub(crate) fn push(&mut self, part: Part<'a>, marker: Marker<'a>) -> Result<(), AllocError> {
        self.items.push(part)?;
        self.names.push(marker.name)?;
        Ok(())
    }
}
