//! The classes of sections.

ghost use Rattle.std.specs.Prelude.{◌≡◌, List, IfOk, map, take};
ghost use Rattle.cap_elf.specs.declared.records.Class.TheVariants.{Dropped};
ghost use Rattle.cap_elf.specs.Classes.{is_split as splits};
ghost use Rattle.cap_layout.specs.PieceOrder.{section_classes};

use cap_base::NoMemory;
use cap_elf::{Class, RelFile};
use std::alloc::Global;
use std::marker::Model;

/// Whether sections of a class are cut at their symbols.
pub(crate) fn is_split(class: Class) -> bool
    ensures { result ≡ splits class }
{
    match class {
        Class::Ro | Class::Relro | Class::Data | Class::Bss => true,
        Class::Code | Class::Init | Class::Fini | Class::Dropped => false,
    }
}

/// The classes of the sections of a file.
#[derive(Drop)]
pub(crate) struct FileClasses {
    classes: Vec<Class>,
}

impl Model for FileClasses {
    ghost use Rattle.std.specs.Prelude.{List};
    ghost use Rattle.cap_elf.specs.declared.records.Class.{Class};

    ghost Value = { List Class };

    ghost view = { λ f. f.classes.items };
}

impl FileClasses {
    ghost use Rattle.std.specs.Prelude.{slice_index_or};

    /// Those of this file.
    pub(crate) fn new(alloc: Global, rel: &RelFile) -> Result<FileClasses, NoMemory>
        ensures { IfOk result (λ f. f ≡ section_classes rel.now) }
    {
        let mut classes = Vec::new(alloc);
        for section in rel.sections() {
            classes.push(section.class)?;
        }
        Ok(FileClasses { classes })
    }

    /// The class of a section; past the end none is kept.
    pub(crate) fn of(&self, section: u32) -> Class
        ensures { result ≡ slice_index_or self.now section Dropped }
    {
        match self.classes.get(section as usize) {
            Some(class) => *class,
            None => Class::Dropped,
        }
    }
}
