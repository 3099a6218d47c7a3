//! A macro for errors.

/// Makes an error from its variant, or from its variant and its text. A format and arguments may
/// follow; they are evaluated and dropped, and the error has its fixed text.
///
/// ```text
/// deku_error!(DekuError::IdVariantNotFound)
/// deku_error!(DekuError::Parse, "no such version")
/// deku_error!(DekuError::Assertion, "Field failed assertion", "version {}", version)
/// ```
#[macro_export]
macro_rules! deku_error {
    ($variant:path) => {
        $variant
    };
    ($variant:path, $text:expr) => {
        $variant($text)
    };
    ($variant:path, $text:expr, $format:expr $(, $argument:expr)* $(,)?) => {{
        $(
            let _ = &$argument;
        )*
        $variant($text)
    }};
}
