ghost use Rattle.std.specs.Prelude.{◌≡◌, true, false};
ghost use Rattle.script.specs.declared.settings.CipherForm.TheVariants.{Words};
ghost use Rattle.box_desk.specs.Makings.{Makes};

use crate::answers::Answer;
use crate::problems::Problem;
use files::{read_limited, read_plate, read_tray};
use hex::FromHex;
use plate::Plate;
use script::{CipherForm, Setting};
use shelf::Shelf;
use std::alloc::Global;
use tray::Tray;

/// The kinds of shelves; of a plate also the count of its places.
#[derive(Clone, Copy)]
pub(crate) enum Kind {
    Tray,
    Plate(u32),
}

/// The image of a shelf.
#[derive(Drop)]
pub(crate) struct Loaded {
    pub(crate) kind: Kind,
    pub(crate) image: Vec<u8>,
}

impl Loaded {
    /// A tray of no places.
    pub(crate) fn empty(heap: Global) -> Loaded {
        Loaded {
            kind: Kind::Tray,
            image: Vec::new(heap),
        }
    }
}

/// What a box is made with, beside its shelf.
#[derive(Clone, Copy)]
pub(crate) struct Making {
    pub(crate) key: [u8; 32],
    pub(crate) sign: [u8; 8],
    pub(crate) first: u64,
    pub(crate) form: CipherForm,
}

/// What the next box is made with. While a box is at work, its shelf stands in it, and only a shelf
/// loaded since is here.
#[derive(Drop)]
pub(crate) struct Settings {
    key: Option<[u8; 32]>,
    form: CipherForm,
    pub(crate) loaded: Option<Loaded>,
    has_shelf: bool,
}

impl Settings {
    pub(crate) fn new() -> Settings
        ensures { result ≡ record { key = None; form = Words; loaded = None; has_shelf = false } }
    {
        Settings {
            key: None,
            form: CipherForm::Words,
            loaded: None,
            has_shelf: false,
        }
    }

    pub(crate) fn set(&mut self, rt: &HostRuntime, setting: Setting) -> Result<Answer, Problem> {
        match setting {
            Setting::Key { file } => self.set_key(rt, file),
            Setting::Form(form) => {
                self.form = form;
                Ok(Answer::Done)
            }
            Setting::Tray { file } => {
                let mut image = read_tray(rt, file)?;
                let places = Tray::new(&mut image).count();
                self.load(Kind::Tray, image);
                Ok(Answer::Places(places))
            }
            Setting::Plate { file, places } => {
                let image = read_plate(rt, file)?;
                let fit = Plate::check(&image, places);
                self.load(Kind::Plate(places), image);
                fit?;
                Ok(Answer::Places(places))
            }
        }
    }

    fn set_key(&mut self, rt: &HostRuntime, file: &str) -> Result<Answer, Problem> {
        let bytes = read_limited(rt, file, 33).map_err(files::Unread::Failed)?;
        let Ok(key) = bytes.as_slice().try_into() else {
            return Err(Problem::KeyLength);
        };
        self.key = Some(key);
        Ok(Answer::Done)
    }

    fn load(&mut self, kind: Kind, image: Vec<u8>)
        ensures { self.new ≡ record self.old {
          loaded = Some (record { kind = kind; image = image });
          has_shelf = true;
        } }
    {
        self.loaded = Some(Loaded { kind, image });
        self.has_shelf = true;
    }

    /// What a box with this sign and first number is made with, if all is there.
    pub(crate) fn making(&self, sign: &str, first: u64) -> Result<Making, Problem>
        ensures { Makes sign.now first self.now result }
    {
        let Ok(sign) = <[u8; 8]>::from_hex(sign) else {
            return Err(Problem::NoSign);
        };
        let key = self.key.ok_or(Problem::NoKey)?;
        if !self.has_shelf {
            return Err(Problem::NoShelf);
        }
        Ok(Making {
            key,
            sign,
            first,
            form: self.form,
        })
    }
}
