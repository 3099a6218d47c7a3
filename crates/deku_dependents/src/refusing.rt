//! The types and attributes of a description that have no part.

use deku_attributes::model::{Field, Order};
use deku_description::syntax::Type;
use deku_texts::wrapping::common_bits;

/// What of a type has no part.
pub(crate) fn partless(kind: &Type<'_>, field: &Field<'_>) -> Option<&'static str> {
    match kind {
        Type::Of(name, _) if name.is_name("Vec") => Some("a list in another type"),
        Type::Of(name, _) if name.is_name("Option") => Some("an option in another type"),
        Type::Of(_, item) => partless(item, field),
        Type::Array(item, _) => partless(item, field),
        Type::Tuple(parts) if parts.is_empty() => Some("a tuple of nothing"),
        Type::Tuple(parts) => {
            for part in *parts {
                if let Some(word) = partless(part, field) {
                    return Some(word);
                }
            }
            if field.layout.order == Order::Lsb && common_bits(kind).is_none() {
                return Some("a tuple of several widths with its low bits first");
            }
            None
        }
        Type::Name(_) => None,
    }
}
