// Which directives stood before.
ghost use Rattle.std.specs.Prelude.{◌≡◌};
ghost use Rattle.pvm_asm.specs.Assembly.{is_given, with_given, is_repeated};

use crate::keyword::Directive;

/// Which directives were given, refused or not.
#[derive(Clone, Copy)]
pub struct Given {
    pub meta: bool,
    pub ro: bool,
    pub rw: bool,
    pub heap: bool,
    pub stack: bool,
    pub width: bool,
    pub jump: bool,
    pub jumps: bool,
    pub lead: bool,
}

impl Given {
    // Whether a directive was given.
    fn has(&self, directive: Directive) -> bool
        ensures { result ≡ is_given self.now directive }
    {
        match directive {
            Directive::Meta => self.meta,
            Directive::Ro => self.ro,
            Directive::Rw => self.rw,
            Directive::Heap => self.heap,
            Directive::Stack => self.stack,
            Directive::Width => self.width,
            Directive::Jump => self.jump,
            Directive::Jumps => self.jumps,
            Directive::Lead => self.lead,
        }
    }

    /// Notes a directive.
    pub fn note(&mut self, directive: Directive)
        ensures { self.new ≡ with_given self.old directive }
    {
        match directive {
            Directive::Meta => self.meta = true,
            Directive::Ro => self.ro = true,
            Directive::Rw => self.rw = true,
            Directive::Heap => self.heap = true,
            Directive::Stack => self.stack = true,
            Directive::Width => self.width = true,
            Directive::Jump => self.jump = true,
            Directive::Jumps => self.jumps = true,
            Directive::Lead => self.lead = true,
        }
    }

    /// Whether a directive has its like before it.
    pub fn repeats(&self, directive: Directive) -> bool
        ensures { result ≡ is_repeated self.now directive }
    {
        match directive {
            Directive::Jump => self.jumps,
            Directive::Jumps => self.jumps || self.jump,
            _ => self.has(directive),
        }
    }
}
