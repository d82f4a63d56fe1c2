// What `chargelog` prints, as bytes in a buffer: the report of a job that was run, or the line of a refused one.
#![tactic(auto)]

mod sections;

ghost use Rattle.std.specs.Prelude.{◌≤◌, length};
ghost use Rattle.spec.specs.Report.{refused_line};
ghost use Rattle.wire.specs.Wrote.{Wrote};
ghost use Rattle.text.specs.Added.{Added, Room};
ghost use Rattle.report.specs.Read.{report_of};
ghost use Rattle.report.specs.Sound.{Sound};

use lines::{job_line, refused_line};
use text::Text;

fn put_report(text: &mut Text<'_>, job: &[u8], res: &[u8])
    requires { Room 85089 text.old × Sound job.now res.now }
    ensures { Added 85089 (report_of job.now res.now) text.old text.new }
{
    job_line(text, job);
    sections::answer_lines(text, job, res);
    sections::log_lines(text, res);
    if let Some(file) = sections::charge_file(res) {
        sections::file_lines(text, file);
    }
}

// 85,089 bytes are always enough: 97 for the job, and 256 times 74 for an operation, 28 for a line of the log and 230 for a page.
pub fn report(out: &mut [u8], job: &[u8], res: &[u8]) -> usize
    requires { (85089 ≤ length out.old) × Sound job.now res.now }
    ensures { Wrote 85089 out.old 0 (report_of job.now res.now) out.new result }
{
    let mut text = Text::new(out);
    put_report(&mut text, job, res);
    text.len()
}

// Number and place have at most twenty digits each.
pub fn refused(out: &mut [u8], number: usize, place: usize) -> usize
    requires { 50 ≤ length out.old }
    ensures { Wrote 50 out.old 0 (refused_line (record { number = number; place = place })) out.new result }
{
    let mut text = Text::new(out);
    refused_line(&mut text, number, place);
    text.len()
}
