// What holds of the metadata of all modules.
ghost use Rattle.cc_tables.specs.Columns.{ColumnsStand};
ghost use Rattle.cc_tables.specs.Faults.{HeadersStand};
ghost use Rattle.cc_tables.specs.Reading.{WrittenTables};

/// The metadata of a module that a file can hold has no fault of the root and of the headers of the streams.
pub fn headers_stand()
    ensures { HeadersStand }
{}

/// The columns of a table, by which its rows are measured, are of the kinds of what stands in them.
pub fn columns_stand()
    ensures { ColumnsStand }
{}

/// What is written of a module without bodies and without an entry is its metadata, as a reader takes it.
pub fn written_tables()
    ensures { WrittenTables }
{}
