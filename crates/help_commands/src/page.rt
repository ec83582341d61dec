ghost use Rattle.std.specs.Prelude.{◌≡◌};
ghost use Rattle.cue_form.specs.Fields.{named};
ghost use Rattle.help_commands.specs.Pages.{page_text, pages};

use crate::texts::{
    BUILD_PAGE, COMMANDS_PAGE, CONCEAL_PAGE, CONVERT_PAGE, CUES_PAGE, DECODE_PAGE, DUAL_PAGE,
    EXPORT_MCC_PAGE, EXPORT_PAGE, FIT_PAGE, HELP_PAGE, IMPORT_MCC_PAGE, IMPORT_PAGE, INSERT_PAGE,
    LOAD_PAGE, PAIRS_PAGE, SHOW_PAGE, VERIFY_PAGE, VERSION_PAGE, XDS_PAGE, XDS_SHOW_PAGE,
};

/// A page of help.
#[derive(Clone, Copy, PartialEq, Eq)]
pub enum Page {
    /// On all commands.
    Commands,
    /// On `build`.
    Build,
    /// On `pairs`.
    Pairs,
    /// On `cues`.
    Cues,
    /// On `fit`.
    Fit,
    /// On `dual`.
    Dual,
    /// On `xds`.
    Xds,
    /// On `decode`.
    Decode,
    /// On `show`.
    Show,
    /// On `conceal`.
    Conceal,
    /// On `xds-show`.
    XdsShow,
    /// On `verify`.
    Verify,
    /// On `insert`.
    Insert,
    /// On `import`.
    Import,
    /// On `export`.
    Export,
    /// On `import-mcc`.
    ImportMcc,
    /// On `export-mcc`.
    ExportMcc,
    /// On `convert`.
    Convert,
    /// On `load`.
    Load,
    /// On `help`.
    Help,
    /// On `version`.
    Version,
}

/// The page on the command of this word; None where it is none.
pub fn page_of(word: &str) -> Option<Page>
    ensures { result ≡ named pages word.now }
{
    match word {
        "build" => Some(Page::Build),
        "pairs" => Some(Page::Pairs),
        "cues" => Some(Page::Cues),
        "fit" => Some(Page::Fit),
        "dual" => Some(Page::Dual),
        "xds" => Some(Page::Xds),
        "decode" => Some(Page::Decode),
        "show" => Some(Page::Show),
        "conceal" => Some(Page::Conceal),
        "xds-show" => Some(Page::XdsShow),
        "verify" => Some(Page::Verify),
        "insert" => Some(Page::Insert),
        "import" => Some(Page::Import),
        "export" => Some(Page::Export),
        "import-mcc" => Some(Page::ImportMcc),
        "export-mcc" => Some(Page::ExportMcc),
        "convert" => Some(Page::Convert),
        "load" => Some(Page::Load),
        "help" => Some(Page::Help),
        "version" => Some(Page::Version),
        _ => None,
    }
}

/// The text of a page.
pub(crate) fn text_of(page: Page) -> &'static [u8]
    ensures { result.now ≡ page_text page }
{
    match page {
        Page::Commands => COMMANDS_PAGE,
        Page::Build => BUILD_PAGE,
        Page::Pairs => PAIRS_PAGE,
        Page::Cues => CUES_PAGE,
        Page::Fit => FIT_PAGE,
        Page::Dual => DUAL_PAGE,
        Page::Xds => XDS_PAGE,
        Page::Decode => DECODE_PAGE,
        Page::Show => SHOW_PAGE,
        Page::Conceal => CONCEAL_PAGE,
        Page::XdsShow => XDS_SHOW_PAGE,
        Page::Verify => VERIFY_PAGE,
        Page::Insert => INSERT_PAGE,
        Page::Import => IMPORT_PAGE,
        Page::Export => EXPORT_PAGE,
        Page::ImportMcc => IMPORT_MCC_PAGE,
        Page::ExportMcc => EXPORT_MCC_PAGE,
        Page::Convert => CONVERT_PAGE,
        Page::Load => LOAD_PAGE,
        Page::Help => HELP_PAGE,
        Page::Version => VERSION_PAGE,
    }
}
