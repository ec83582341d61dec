ghost use Rattle.std.specs.Prelude.{◌≡◌, ◌++◌, All, IfOk, OnOk, map};
ghost use Rattle.std.specs.List.{flat_map};
ghost use Rattle.line21_codes.specs.Writable.{IsWritable};
ghost use Rattle.cue_lists.specs.Cues.{IsCueFormed};
ghost use Rattle.line21_author.specs.RunCodes.{run_codes};
ghost use Rattle.line21_author.specs.CueCodes.{cue_codes};
ghost use Rattle.line21_author.specs.CueUnits.{unit_of, units_of};
ghost use Rattle.line21_author.specs.UnitPairs.{IsCarried};

use crate::channel::{field_of_kind, write_in};
use crate::opening::push_opening;
use crate::run::push_run;
use crate::unit::{Unit, Units};
use cue_lists::{Cue, Run};
use line21_codes::{Code, FieldNumber};
use std::alloc::{AllocError, Global};

/// The units of a cue, in the order in which its field sends them (CTA-608-E, 47 CFR 79.101). They
/// are the codes that set its caption mode, and for each run its preamble, tab offset, mid-row code
/// and text. A window cue has none. `AllocError` where there is no memory for them.
pub fn units(alloc: Global, cue: &Cue) -> Result<Units, AllocError>
    requires { IsCueFormed cue.now }
    ensures units { IfOk result (λ units. units ≡ units_of cue.now) }
    ensures carried { IfOk result (λ units. All IsCarried units) }
{
    let codes = cue_codes(alloc, cue)?;
    written_units(alloc, &codes, field_of_kind(cue.kind))
}

// The codes of a cue.
fn cue_codes(alloc: Global, cue: &Cue) -> Result<Vec<Code>, AllocError>
    ensures { IfOk result (λ codes. codes.items ≡ cue_codes cue.now) }
{
    let mut codes = Vec::new(alloc);
    push_opening(&mut codes, cue.kind)?;
    push_runs(&mut codes, cue.runs.as_slice())?;
    Ok(codes)
}

// Appends the codes of runs.
fn push_runs(codes: &mut Vec<Code>, runs: &[Run]) -> Result<(), AllocError>
    ensures { OnOk result (codes.new.items ≡ codes.old.items ++ flat_map run_codes runs.now) }
{
    for run in runs {
        push_run(codes, run)?;
    }
    Ok(())
}

// The units of codes in a field.
fn written_units(alloc: Global, codes: &[Code], in_field: FieldNumber) -> Result<Units, AllocError>
    requires { All IsWritable codes.now }
    ensures { IfOk result (λ units. units ≡ map (unit_of in_field) codes.now) }
{
    let mut units = Vec::with_capacity(alloc, codes.len())?;
    for code in codes {
        units.push(written_unit(*code, in_field))?;
    }
    Ok(Units::from_vec(units))
}

// The unit of a code in a field: the pair that is written, which is sent twice where it is a control pair.
fn written_unit(code: Code, in_field: FieldNumber) -> Unit
    requires { IsWritable code }
    ensures { result ≡ unit_of in_field code }
{
    Unit {
        pair: write_in(in_field, code),
        doubled: code.is_doubled(),
    }
}
