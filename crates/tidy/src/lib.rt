// Tidying between runs: a charge file is checked, the pages that are left are found, and the tidied file is written with a directory of the wanted
// depth. Nothing is written before all refusals are decided, and no memory is lent but the output.
#![tactic(auto)]

mod before;
mod directory;
mod file;
mod left;
mod pages;

ghost use Rattle.std.specs.Prelude.{◌≡◌, ◌≤◌, length};
ghost use Rattle.spec.specs.Cases.{told, fault_in};
ghost use Rattle.spec.specs.Tidy.{tidy_bytes};
ghost use Rattle.laws.specs.Tidy.Wanted.{Wanted};
ghost use Rattle.header.specs.File.{file_size};
ghost use Rattle.wire.specs.Over.{over};
ghost use Rattle.wire.specs.Comes.{Comes};
ghost use Rattle.tidy.specs.Charge.{bytes_in, file_in};
ghost use Rattle.tidy.specs.Call.{Settled, output_fault, file_fault};

use crate::file::ChargeFile;
use crate::left::Left;
use header::Header;
use spec::{Reason, Refusal};

impl Left<'_> {
    // 19 "wanted depth above 8 or below the depth of a page left after joining", then 11, "an output under the tidied file's length".
    fn wrong_output(&self, depth: usize, room: usize) -> Result<(), Refusal>
        ensures { fault_in result ≡ output_fault room depth (bytes_in self.now.file) }
    {
        if Header::MAX_DEPTH < depth || self.depths().iter().any(|&l| depth < l as usize) {
            return Err(Reason::Depth.at(0));
        }
        let h = self.file.reader.header;
        if room < Header::file_length(depth, h.capacity, h.pages) {
            return Err(Reason::Output.at(0));
        }
        Ok(())
    }

    // The tidied file: header, directory and pages; and their length.
    fn write(&self, depth: usize, out: &mut [u8]) -> usize
        requires wanted { Wanted depth (file_in self.now.file) }
        requires room { file_size depth self.now.file.reader.header.capacity self.now.file.reader.header.pages ≤ length out.old }
        ensures size { result ≡ length (tidy_bytes depth (bytes_in self.now.file)) }
        ensures output { out.new ≡ over out.old 0 (tidy_bytes depth (bytes_in self.now.file)) }
    {
        let h = self.file.reader.header;
        let left = self.depths();
        let table = Header::SIZE + 2 * Header::entries_at(depth);
        let end = Header::file_length(depth, h.capacity, h.pages);
        Header::put_file(out, 0, depth, h.capacity, h.pages, left.len());
        directory::put_directory(&mut out[Header::SIZE..table], depth, left);
        self.put_pages(&mut out[table..end]);
        end
    }

    // The tidied file, or what is refused of it.
    fn try_write(&self, depth: usize, out: &mut [u8]) -> Result<usize, Refusal>
        ensures { Comes (output_fault (length out.old) depth (bytes_in self.now.file)) (tidy_bytes depth (bytes_in self.now.file)) out.old out.new (told result) }
    {
        self.wrong_output(depth, out.len())?;
        Ok(self.write(depth, out))
    }
}

// An accepted file. 18: "operations present, at their count".
fn tidy_file(file: ChargeFile<'_>, depth: usize, out: &mut [u8]) -> Result<usize, Refusal>
    ensures { Comes (file_fault (length out.old) depth (bytes_in file.entry)) (tidy_bytes depth (bytes_in file.entry)) out.old out.new (told result) }
{
    if file.reader.header.ops != 0 {
        return Err(Reason::Present.at(8));
    }
    let mut buffer = [0u8; 256];
    let count = left::find(file, &mut buffer);
    let left = Left {
        file,
        depths: &buffer[..count],
    };
    left.try_write(depth, out)
}

// THE CALL: any bytes, any wanted depth, and any lent output.
pub fn tidy(file: &[u8], depth: usize, out: &mut [u8]) -> Result<usize, Refusal>
    ensures { Settled file.now depth out.old out.new (told result) }
{
    let reader = job::check(file)?;
    tidy_file(ChargeFile { reader }, depth, out)
}
