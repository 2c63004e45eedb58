// A sheet's way from its record to its certificate.
ghost use Rattle.std.specs.Prelude.{◌≡◌, ◌++◌, Ok, Err, IfOk, vec_items, vec_len, OnOk, ◌≢◌};
ghost use Rattle.terms.specs.Limits.{touches_max};
ghost use Rattle.terms.specs.declared.refusal.Refusal.TheVariants.{AlreadySettled};
ghost use Rattle.surveys.specs.States.{opened, opening_refusal};
ghost use Rattle.logs.specs.Logs.{state_of};
ghost use Rattle.logs.specs.Settings.{SetAsAsked};
ghost use Rattle.certificates.specs.Layout.{certificate_size};
ghost use Rattle.policies.specs.Lines.{known_text};
ghost use Rattle.policies.specs.Policies.{as_list, certificate_told, Closed, probed, survey_text, text_unless, Ends, form_text, PolicyOf};

use crate::lines::put_known;
use crate::paper::Paper;
use crate::probe::probe;
use bed::survey::Survey;
use certificates::writer::certify;
use gauges::gauge::Gauge;
use logs::log::Log;
use logs::setting::Setting;
use records::record::{Record, check};
use std::alloc::{AllocError, Global};
use terms::limits::TOUCHES_MAX;
use terms::refusal::Refusal;

// The name of the record's gauge.
const GAUGE_NAME: u8 = 1;

// The longest certificate: 98 bits and 28 for each of 256 touches, in whole bytes. No `div_ceil`, and no call to the layout of certificates: a constant's value can call nothing.
const CERTIFICATE_MAX: usize = (98 + 28 * TOUCHES_MAX as usize + 7) / 8;

// Room for the longest certificate.
fn blank(heap: Global) -> Result<Vec<u8>, AllocError>
    ensures { IfOk result (λ v. vec_len v ≡ certificate_size touches_max) }
{
    vec![in heap; 0u8; CERTIFICATE_MAX]
}

// The certificate of a survey in memory of its own, or why there is none.
// A refusal is an answer beside the form, which is printed all the same, and no error of the printing: so a Result within a Result, here and below.
fn certificate(heap: Global, log: &Log) -> Result<Result<Vec<u8>, Refusal>, AllocError>
    ensures { IfOk result (λ c. as_list vec_items c ≡ certificate_told (state_of log.now)) }
{
    let mut bytes = blank(heap)?;
    Ok(certify(log, bytes.as_mut_slice()).map(|length| {
        bytes.truncate(length);
        bytes
    }))
}

// The certificate of a survey where the probing stopped since it is settled; else the refusal that it stopped with, and no memory is asked for.
fn close(heap: Global, log: &Log, stop: Refusal) -> Result<Result<Vec<u8>, Refusal>, AllocError>
    ensures settled { stop ≡ AlreadySettled → IfOk result (λ c. as_list vec_items c ≡ certificate_told (state_of log.now)) }
    ensures refused { stop ≢ AlreadySettled → result ≡ Ok (Err stop) }
{
    match stop {
        Refusal::AlreadySettled => certificate(heap, log),
        _ => Ok(Err(stop)),
    }
}

// Prints what is known of a survey.
fn print_known<P: Paper>(heap: Global, paper: &mut P, log: &Log) -> anyhow::Result<()>
    ensures { OnOk result (P.Paper.said paper.new ≡ P.Paper.said paper.old ++ known_text (state_of log.now)) }
{
    let mut form = String::new(heap);
    put_known(heap, &mut form, log)?;
    paper.print(form.as_str())
}

// Surveys the line of a gauge by high, prints each touch as it is made and what is known then, and answers the certificate or why there is none.
pub fn survey_line<G: Gauge + Drop, P: Paper>(
    heap: Global,
    paper: &mut P,
    gauge: G,
    setting: Setting,
) -> anyhow::Result<Result<Vec<u8>, Refusal>>
    ensures text { OnOk result (P.Paper.said paper.new ≡ P.Paper.said paper.old ++ survey_text (G.Gauge.meaning gauge) (opened (G.Gauge.meaning gauge) setting.tolerance setting.limit)) }
    ensures certificate { IfOk result (λ c. Closed (G.Gauge.meaning gauge).reading (probed (G.Gauge.meaning gauge) (opened (G.Gauge.meaning gauge) setting.tolerance setting.limit)) (as_list vec_items c)) }
{
    let mut survey = Survey::open(gauge, setting);
    let stop = probe(heap, &mut survey, paper)?;
    // The certificate first: where memory for it is wanting, what is known is not printed.
    let certificate = close(heap, survey.log(), stop)?;
    print_known(heap, paper, survey.log())?;
    Ok(certificate)
}

// The tolerance with the limit of 256 touches.
fn setting_for(tolerance: u32) -> Result<Setting, Refusal>
    ensures { SetAsAsked tolerance touches_max result }
{
    Setting::new(tolerance, TOUCHES_MAX)
}

// The policy of a gauge: the tolerance may be refused.
fn survey_gauge<G: Gauge + Drop, P: Paper>(
    heap: Global,
    paper: &mut P,
    gauge: G,
    tolerance: u32,
) -> anyhow::Result<Result<Vec<u8>, Refusal>>
    ensures text { OnOk result (P.Paper.said paper.new ≡ P.Paper.said paper.old ++ text_unless (opening_refusal tolerance touches_max) (survey_text (G.Gauge.meaning gauge) (opened (G.Gauge.meaning gauge) tolerance touches_max))) }
    ensures policy { IfOk result (λ c. Ends (opening_refusal tolerance touches_max) (G.Gauge.meaning gauge) (opened (G.Gauge.meaning gauge) tolerance touches_max) (as_list vec_items c)) }
{
    match setting_for(tolerance) {
        Ok(setting) => survey_line(heap, paper, gauge, setting),
        Err(refusal) => Ok(Err(refusal)),
    }
}

// Prints the insurer's form for the bytes of a record and a tolerance, and answers the certificate or why there is none.
pub fn policy_for<P: Paper>(
    heap: Global,
    paper: &mut P,
    bytes: &[u8],
    tolerance: u32,
) -> anyhow::Result<Result<Vec<u8>, Refusal>>
    ensures text { OnOk result (P.Paper.said paper.new ≡ P.Paper.said paper.old ++ form_text bytes.now tolerance) }
    ensures policy { IfOk result (λ c. PolicyOf bytes.now tolerance (as_list vec_items c)) }
{
    match check(bytes, GAUGE_NAME) {
        Err(refusal) => Ok(Err(refusal)),
        Ok(()) => survey_gauge(heap, paper, Record::new(bytes, GAUGE_NAME), tolerance),
    }
}
