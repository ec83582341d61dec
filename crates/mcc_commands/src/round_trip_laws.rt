//! Laws of the definitions: functions without a body, whose contract is the law.

ghost use Rattle.mcc_commands.specs.RoundTrip.{ExportedFilesAreImports, WordsComeBack};

/// The MCC file that is put of words whose packets are exported is imported as these words, where they have no more bytes than the limit:
/// as just these, byte for byte.
pub fn exported_files_are_imports()
    ensures { ExportedFilesAreImports }
{}

/// What `export-mcc` makes of words with the answer Ok, where it has no more bytes than the limit, `import-mcc` makes with the answer Ok
/// these words of, byte for byte, and no others.
pub fn words_come_back()
    ensures { WordsComeBack }
{}
