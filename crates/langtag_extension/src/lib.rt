//! Extensions of language tags, and the singletons that begin them (RFC 5646 section 2.2.6).
//!
//! ```rust
//! use langtag_extension::{Extensions, Singleton};
//!
//! let extensions = Extensions::new("a-ext1-u-co-phonebk")?;
//! let unicode = extensions.get(Singleton::new(b'U')?).ok_or("no such extension")?;
//! assert_eq!(rt; unicode.as_str(), "u-co-phonebk");
//! ```
#![tactic(auto)]

mod extension;
mod extension_iter;
mod extension_subtag;
mod extension_texts;
mod extensions;
mod extensions_iter;
mod noted;
mod singleton;

pub use extension::{Extension, ExtensionBuf, InvalidExtension};
pub use extension_iter::ExtensionIter;
pub use extension_subtag::{ExtensionSubtag, ExtensionSubtagBuf, InvalidExtensionSubtag};
pub use extension_texts::first_extension_end;
pub use extensions::{Extensions, ExtensionsBuf, InvalidExtensions};
pub use extensions_iter::ExtensionsIter;
pub use singleton::{InvalidSingleton, Singleton};

// For this repository.
pub use noted::{SINGLETONS, folded_singleton, singletons_of};
