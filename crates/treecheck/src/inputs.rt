// The four files, named by arguments or not.
ghost use Rattle.std.specs.Prelude.{◌≡◌, MatchResult, Some};
ghost use Rattle.files.specs.Reading.{FileRead};

use line::Input;

// Reads the file that an argument names, or the one of a fixed name in the working folder.
fn read_one(rt: HostRuntime, named: bool, i: usize, name: &[u8], buf: &mut [u8]) -> Option<usize>
    ensures { FileRead buf.new result }
{
    if named {
        return files::read_argument(&rt, i, buf);
    }
    files::read_path(&rt, name, buf)
}

// Reads one of the four files: so many bytes at the start of the buffer, or the file where it is not read.
pub fn read_input(rt: HostRuntime, file: Input, named: bool, buf: &mut [u8]) -> Result<usize, Input>
    ensures { MatchResult result (λ n. FileRead buf.new (Some n)) (λ unread. unread ≡ file) }
{
    let argument = match file {
        Input::Ask => 1,
        Input::Net => 2,
        Input::Formula => 3,
        Input::Tree => 4,
    };
    read_one(rt, named, argument, file.name(), buf).ok_or(file)
}
