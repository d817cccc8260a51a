//! The functions of the library, whose names may not be declared.
ghost use Rattle.std.specs.Prelude.{◌≡◌, option_map};
ghost use Rattle.css_types.specs.Scopes as types;
ghost use Rattle.css_scopes.specs.Libraries.{library};

/// A function of the library.
#[derive(Clone, Copy, PartialEq, Eq)]
pub enum Library {
    Getchar,
    Putchar,
    Puts,
    Malloc,
    Free,
    Printf,
}

/// The library's function of a name.
#[tactic(auto, unfolding(css_types::specs::Scopes::library_of))]
pub fn library_of(name: &[u8]) -> Option<Library>
    ensures { option_map library result ≡ types.library_of name.now }
{
    if name == b"getchar".as_slice() {
        Some(Library::Getchar)
    } else if name == b"putchar".as_slice() {
        Some(Library::Putchar)
    } else if name == b"puts".as_slice() {
        Some(Library::Puts)
    } else if name == b"malloc".as_slice() {
        Some(Library::Malloc)
    } else if name == b"free".as_slice() {
        Some(Library::Free)
    } else if name == b"printf".as_slice() {
        Some(Library::Printf)
    } else {
        None
    }
}
