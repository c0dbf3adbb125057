// The files of a folder, for the programs: a file's path put together in a lent buffer, and a file read into one. Assumes nothing.
#![tactic(auto)]

ghost use Rattle.std.specs.Prelude.{[], ◌∷◌, ◌++◌, ◌≤◌, length};
ghost use Rattle.text.specs.Texts.{Put};

use std::io::Read;
use text::Text;

// FOLDER/NAME over the front of out; its length. What does not fit is dropped.
pub fn path_into(folder: &[u8], name: &[u8], out: &mut [u8]) -> usize
    ensures { Put 0 ((folder.now ++ (47 ∷ [])) ++ name.now) out.old result out.new }
{
    let mut path = Text { out, end: 0 };
    path.put(folder);
    path.put(b"/");
    path.put(name);
    path.end
}

// Reads until the buffer is full, the input ends or a read fails; how many bytes came.
pub fn read_full(file: &mut impl Read, buffer: &mut [u8]) -> usize
    ensures { result ≤ length buffer.new }
{
    let mut done: usize = 0;
    while done < buffer.len() {
        let n = file.read(&mut buffer[done..]).unwrap_or(0);
        if n == 0 {
            break;
        }
        done += n;
    }
    done
}

// What no contract says of a reader: how much it gives at once, and when a read fails.
#[cfg(test)]
mod tests {
    use super::*;
    use std::io;
    use std::io::ErrorKind;

    // Gives one byte of `left` at a time; where a 0 or nothing stands there the read fails.
    #[derive(Drop)]
    struct Drip<'a> {
        left: &'a [u8],
    }

    impl Read for Drip<'_> {
        fn read(&mut self, buf: &mut [u8]) -> io::Result<usize> {
            let Some((first, rest)) = self.left.split_first() else {
                return Err(io::Error::from(ErrorKind::Other));
            };
            let Some(place) = buf.first_mut() else {
                return Ok(0);
            };
            self.left = rest;
            if *first == 0 {
                return Err(io::Error::from(ErrorKind::Other));
            }
            *place = *first;
            Ok(1)
        }
    }

    #[test]
    fn read_full_reads_on_until_the_buffer_is_full_or_nothing_comes(rt: HostRuntime) {
        for (room, came, left) in [
            (0, 0, 7),
            (1, 1, 6),
            (4, 4, 3),
            (5, 5, 2),
            (6, 5, 1),
            (300, 5, 1),
        ] {
            let mut want = [9u8; 300];
            want[..came].copy_from_slice(&b"image"[..came]);
            let mut whole = [9u8; 300];
            let mut slice = &b"image"[..];
            let n = read_full(&mut slice, &mut whole[..room]);
            assert_eq!(rt; (n, slice.len()), (came, 5 - came), "a slice into {room}");
            let mut bytewise = [9u8; 300];
            let mut drip = Drip { left: b"image\0s" };
            let n = read_full(&mut drip, &mut bytewise[..room]);
            assert_eq!(rt;
                (n, drip.left.len()),
                (came, left),
                "byte by byte into {room}"
            );
            assert!(rt; whole == want && bytewise == want, "into {room}");
        }
        let mut full = [9u8; 300];
        let n = read_full(&mut Drip { left: &[7u8; 301] }, &mut full);
        assert!(rt; n == 300 && full == [7u8; 300], "300 reads");
    }
}
