// The `page` line, from a page's bytes.
#![tactic(auto)]

ghost use Rattle.std.specs.Prelude.{map, ◌+◌, ◌*◌, ◌/◌, ◌≤◌, length};
ghost use Rattle.spec.specs.Basics.{each};
ghost use Rattle.spec.specs.Bytes.{byte, parts};
ghost use Rattle.spec.specs.Job.{record_size};
ghost use Rattle.spec.specs.Decode.{record_of, page_of};
ghost use Rattle.spec.specs.Report.{record_word, page_line};
ghost use Rattle.text.specs.Added.{Added, Room};

use text::Text;
use wire::{u8_at, u16_at, u32_at};

// "call=charge"
fn record_word(text: &mut Text<'_>, record: &[u8])
    requires room { Room 22 text.old }
    requires whole { 8 ≤ length «record».now }
    ensures { Added 22 (record_word (record_of «record».now)) text.old text.new }
{
    text.field(b" ", u32_at(record, 0));
    text.field(b"=", u32_at(record, 4));
}

// "for each record, in the page's order": records of 8 bytes, one behind another.
fn record_words(text: &mut Text<'_>, records: &[u8])
    requires { Room (22 * (length records.now / 8)) text.old }
    ensures { Added (22 * (length records.now / 8)) (each record_word (map record_of (parts (length records.now / 8) record_size records.now))) text.old text.new }
{
    for record in records.chunks_exact(8) {
        record_word(text, record);
    }
}

// Page x. What is asked of its bytes: room for as many records as it says it has, and no more than a page can have.
pub fn page_line(text: &mut Text<'_>, x: u32, page: &[u8])
    requires room { Room 230 text.old }
    requires records { 4 + 8 * byte page.now 1 ≤ length page.now }
    requires few { byte page.now 1 ≤ 8 }
    ensures { Added 230 (page_line x (page_of page.now)) text.old text.new }
{
    text.field(b"page ", x);
    text.field(b" depth ", u8_at(page, 0) as u32);
    text.field(b" pattern ", u16_at(page, 2) as u32);
    text.bytes(b" :");
    record_words(text, &page[4..4 + 8 * u8_at(page, 1)]);
    text.bytes(b"\n");
}
