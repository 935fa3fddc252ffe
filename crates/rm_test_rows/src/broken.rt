//! A reader that gives `CREA`, fails, and then gives nothing more. As a writer it takes three bytes, then none of
//! them, and then fails.
use std::io;
use std::io::{Read, Write};

#[derive(Drop)]
pub struct Broken {
    pub calls: u8,
}

impl Read for Broken {
    fn read(&mut self, buf: &mut [u8]) -> io::Result<usize> {
        self.calls = self.calls.saturating_add(1);
        match self.calls {
            1 if buf.len() >= 4 => {
                buf[..4].copy_from_slice(b"CREA");
                Ok(4)
            }
            2 => Err(io::Error::from(io::ErrorKind::Other)),
            _ => Ok(0),
        }
    }
}

impl Write for Broken {
    fn write(&mut self, buf: &[u8]) -> io::Result<usize> {
        self.calls = self.calls.saturating_add(1);
        match self.calls {
            1 => Ok(buf.len().min(3)),
            2 => Ok(0),
            _ => Err(io::Error::from(io::ErrorKind::Other)),
        }
    }

    fn flush(&mut self) -> io::Result<()> {
        Ok(())
    }
}
