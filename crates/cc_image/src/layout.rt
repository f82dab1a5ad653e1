// The headers of an image as tables of fields (ECMA-335, II.25.2 and II.25.3.3).
use Value::{
    Entry, Ignored, ImageSize, Is, MetadataPlace, MetadataSize, SectionSize, SectionSizeAgain,
    UsedSize,
};
use Width::{U8, U16, U32};

/// What stands in a field.
#[derive(Clone, Copy, Debug, PartialEq, Eq)]
pub enum Value {
    /// This number.
    Is(u32),
    /// Any number. It is written as this one.
    Ignored(u32),
    /// The size of the section in the file, where it first stands.
    SectionSize,
    /// The same, where it stands again.
    SectionSizeAgain,
    /// How much of the section is used.
    UsedSize,
    /// The size of the loaded image.
    ImageSize,
    /// Where the metadata are loaded.
    MetadataPlace,
    /// The size of the metadata.
    MetadataSize,
    /// The token of the method that a run begins with.
    Entry,
}

/// How many bytes a field has: one, two or four.
#[derive(Clone, Copy, Debug, PartialEq, Eq)]
pub enum Width {
    U8,
    U16,
    U32,
}

/// A field of a header: its width, and what stands in it.
#[derive(Clone, Copy, Debug, PartialEq, Eq)]
pub struct Item(pub Width, pub Value);

/// The MS-DOS header and the signature of the PE file (II.25.2.1), each byte a field.
pub static DOS: [u8; 132] = [
    0x4D, 0x5A, 0x90, 0x00, 0x03, 0x00, 0x00, 0x00, 0x04, 0x00, 0x00, 0x00, 0xFF, 0xFF, 0x00, 0x00,
    0xB8, 0x00, 0x00, 0x00, 0x00, 0x00, 0x00, 0x00, 0x40, 0x00, 0x00, 0x00, 0x00, 0x00, 0x00, 0x00,
    0x00, 0x00, 0x00, 0x00, 0x00, 0x00, 0x00, 0x00, 0x00, 0x00, 0x00, 0x00, 0x00, 0x00, 0x00, 0x00,
    0x00, 0x00, 0x00, 0x00, 0x00, 0x00, 0x00, 0x00, 0x00, 0x00, 0x00, 0x00, 0x80, 0x00, 0x00, 0x00,
    0x0E, 0x1F, 0xBA, 0x0E, 0x00, 0xB4, 0x09, 0xCD, 0x21, 0xB8, 0x01, 0x4C, 0xCD, 0x21, 0x54, 0x68,
    0x69, 0x73, 0x20, 0x70, 0x72, 0x6F, 0x67, 0x72, 0x61, 0x6D, 0x20, 0x63, 0x61, 0x6E, 0x6E, 0x6F,
    0x74, 0x20, 0x62, 0x65, 0x20, 0x72, 0x75, 0x6E, 0x20, 0x69, 0x6E, 0x20, 0x44, 0x4F, 0x53, 0x20,
    0x6D, 0x6F, 0x64, 0x65, 0x2E, 0x0D, 0x0D, 0x0A, 0x24, 0x00, 0x00, 0x00, 0x00, 0x00, 0x00, 0x00,
    0x50, 0x45, 0x00, 0x00,
];

/// The PE file header (II.25.2.2), from byte 132 on.
pub static COFF: [Item; 7] = [
    Item(U16, Is(0x014C)), // machine
    Item(U16, Is(1)), // number of sections
    Item(U32, Ignored(0)), // time stamp
    Item(U32, Is(0)), // pointer to the symbol table
    Item(U32, Is(0)), // number of symbols
    Item(U16, Is(224)), // size of the optional header
    Item(U16, Is(0x0102)), // characteristics
];

/// The optional header (II.25.2.3), from byte 152 on.
pub static OPTIONAL: [Item; 30] = [
    Item(U16, Is(0x010B)), // magic
    Item(U8, Is(6)), // major version of the linker
    Item(U8, Ignored(0)), // minor version of the linker
    Item(U32, SectionSize), // size of the code
    Item(U32, Is(0)), // size of initialized data
    Item(U32, Is(0)), // size of uninitialized data
    Item(U32, Is(0)), // entry point
    Item(U32, Is(0x2000)), // base of the code
    Item(U32, Is(0)), // base of the data
    Item(U32, Is(0x400000)), // image base
    Item(U32, Is(0x2000)), // alignment of sections
    Item(U32, Is(0x200)), // alignment in the file
    Item(U16, Is(5)), // major version of the operating system
    Item(U16, Ignored(0)), // minor version of the operating system
    Item(U16, Is(0)), // major version of the user
    Item(U16, Ignored(0)), // minor version of the user
    Item(U16, Is(5)), // major version of the subsystem
    Item(U16, Ignored(0)), // minor version of the subsystem
    Item(U32, Is(0)), // reserved
    Item(U32, ImageSize), // size of the image
    Item(U32, Is(0x200)), // size of the headers
    Item(U32, Is(0)), // checksum
    Item(U16, Is(3)), // subsystem
    Item(U16, Is(0)), // characteristics of the DLL
    Item(U32, Is(0x100000)), // reserve of the stack
    Item(U32, Is(0x1000)), // commit of the stack
    Item(U32, Is(0x100000)), // reserve of the heap
    Item(U32, Is(0x1000)), // commit of the heap
    Item(U32, Is(0)), // flags of the loader
    Item(U32, Is(16)), // number of directories
];

/// The directories 0 to 13 (II.25.2.3.3), from byte 248 on: each has a place and a size, and none is used.
pub static DIRECTORIES: [Item; 28] = [Item(U32, Is(0)); 28];

/// The directories 14 and 15, from byte 360 on: the CLI header, and one that is not used.
pub static CLI_DIRECTORY: [Item; 4] = [
    Item(U32, Is(0x2000)),
    Item(U32, Is(72)),
    Item(U32, Is(0)),
    Item(U32, Is(0)),
];

/// The name of the section (II.25.3), from byte 376 on, each byte a field.
pub static SECTION_NAME: [u8; 8] = [0x2E, 0x74, 0x65, 0x78, 0x74, 0x00, 0x00, 0x00];

/// The header of the section behind its name, from byte 384 on.
pub static SECTION_HEADER: [Item; 9] = [
    Item(U32, UsedSize), // virtual size
    Item(U32, Is(0x2000)), // virtual address
    Item(U32, SectionSizeAgain), // size in the file
    Item(U32, Is(0x200)), // place in the file
    Item(U32, Is(0)), // pointer to relocations
    Item(U32, Is(0)), // pointer to line numbers
    Item(U16, Is(0)), // number of relocations
    Item(U16, Is(0)), // number of line numbers
    Item(U32, Is(0x60000020)), // characteristics
];

/// Zeros up to the section, from byte 416 on, each byte a field.
pub static ZEROS: [u8; 96] = [0; 96];

/// The CLI header (II.25.3.3), with which the section begins, from byte 512 on.
pub static CLI: [Item; 7] = [
    Item(U32, Is(72)), // size of the header
    Item(U16, Is(2)), // major version of the runtime
    Item(U16, Ignored(5)), // minor version of the runtime
    Item(U32, MetadataPlace), // place of the metadata
    Item(U32, MetadataSize), // size of the metadata
    Item(U32, Is(1)), // flags
    Item(U32, Entry), // entry point
];

/// The rest of the CLI header, from byte 536 on: six directories that are not used.
pub static CLI_DIRECTORIES: [Item; 12] = [Item(U32, Is(0)); 12];
