//! Calls that add to a resolver, and one that renames.

use crate::tests::answer::{Answer, Kind, Wanted};
use crate::tests::given::{has, keeping, one_module, path, text};
use crate::tests::play::{Played, Row, Trial, is_right, play_made};
use std::alloc::Global;
use std::test::Fail;
use wesl_router::Router;
use weslc_bundle::{Options, VirtualResolver, link};
use wgsl_path::{Ident, ModulePath};

const ROOT: &str = "import package::m::y; fn g() -> u32 { return y; }";

const M: &str = "const y = 7;";

const LINKED: &str = "fn g() -> u32 {\n    return package_m_y;\n}\nconst package_m_y = 7;\n";

/// A module is added to what has one.
#[derive(Clone, Copy)]
struct Added;

#[derive(Drop)]
struct Adding {
    resolver: VirtualResolver,
}

impl Trial for Adding {
    fn call(&mut self, alloc: Global) -> Answer {
        let (Some(at), Some(says)) = (path(alloc, "package::m"), text(alloc, M)) else {
            return Answer::Untold;
        };
        if self.resolver.add_module(at, says).is_err() {
            return Answer::Refused;
        }
        let wanted = [("package", ROOT), ("package::m", M)];
        told(has(alloc, &self.resolver, &wanted))
    }

    fn is_unchanged(&mut self, alloc: Global) -> Option<bool> {
        has(alloc, &self.resolver, &[("package", ROOT)])
    }
}

/// How a call was answered, of which a test says so.
fn told(is_right: Option<bool>) -> Answer {
    match is_right {
        Some(true) => Answer::Right,
        Some(false) => Answer::Wrong,
        None => Answer::Untold,
    }
}

impl Row for Added {
    fn play(&self, alloc: Global) -> Played {
        let resolver = one_module(alloc, "package", ROOT);
        play_made(alloc, first_added(resolver))
    }
}

fn first_added(resolver: Option<VirtualResolver>) -> Option<Adding> {
    Some(Adding {
        resolver: resolver?,
    })
}

/// A resolver is mounted beside one that is there: under `package::m`, or as the fallback.
#[derive(Clone, Copy)]
enum Mounted {
    Under,
    Fallback,
}

#[derive(Drop)]
struct Mounting {
    mounted: Mounted,
    router: Router,
    root: ModulePath,
    options: Options,
}

/// Mounts the module `package::m`, which its resolver knows as `package`; whether there was memory for it.
fn mount_m(alloc: Global, router: &mut Router) -> Option<bool> {
    let prefix = path(alloc, "package::m")?;
    let resolver = Box::new(alloc, one_module(alloc, "package", M)?).ok()?;
    Some(router.mount_resolver(prefix, resolver).is_ok())
}

/// Mounts the root as what has all other paths.
fn mount_root(alloc: Global, router: &mut Router) -> Option<bool> {
    let resolver = Box::new(alloc, one_module(alloc, "package", ROOT)?).ok()?;
    router.mount_fallback_resolver(resolver);
    Some(true)
}

impl Mounting {
    /// Whether what is linked of the mounted modules is this.
    fn links(&mut self, alloc: Global, wanted: Wanted) -> Option<bool> {
        match wanted.of(link(alloc, &mut self.router, &self.root, &self.options)) {
            Answer::Right => Some(true),
            Answer::Wrong => Some(false),
            Answer::Refused | Answer::Untold => None,
        }
    }
}

impl Trial for Mounting {
    fn call(&mut self, alloc: Global) -> Answer {
        let is_mounted = match self.mounted {
            Mounted::Under => mount_m(alloc, &mut self.router),
            Mounted::Fallback => mount_root(alloc, &mut self.router),
        };
        match is_mounted {
            Some(true) => told(self.links(alloc, Wanted::Text(LINKED))),
            Some(false) => Answer::Refused,
            None => Answer::Untold,
        }
    }

    fn is_unchanged(&mut self, alloc: Global) -> Option<bool> {
        match self.mounted {
            Mounted::Under => self.links(alloc, Wanted::Error(Kind::NotFound)),
            Mounted::Fallback => Some(true),
        }
    }
}

impl Mounted {
    fn made(&self, alloc: Global) -> Option<Mounting> {
        let mut router = Router::new(alloc);
        let is_made = match self {
            Mounted::Under => mount_root(alloc, &mut router)?,
            Mounted::Fallback => mount_m(alloc, &mut router)?,
        };
        if !is_made {
            return None;
        }
        let (root, options) = (path(alloc, "package")?, keeping(alloc, "g")?);
        Some(Mounting {
            mounted: *self,
            router,
            root,
            options,
        })
    }
}

impl Row for Mounted {
    fn play(&self, alloc: Global) -> Played {
        play_made(alloc, self.made(alloc))
    }
}

/// A name gets another, for which memory is needed, and none by the call itself.
#[derive(Clone, Copy)]
struct Renamed;

#[derive(Drop)]
struct Renaming {
    ident: Ident,
}

impl Trial for Renaming {
    fn call(&mut self, alloc: Global) -> Answer {
        let Some(name) = text(alloc, "a_name_of_more_than_a_few_letters") else {
            return Answer::Refused;
        };
        self.ident.rename(name);
        Wanted::Text("a_name_of_more_than_a_few_letters").of_text(self.ident.name())
    }

    fn is_unchanged(&mut self, _alloc: Global) -> Option<bool> {
        Some(self.ident.name() == "x")
    }
}

fn name_to_change(alloc: Global) -> Option<Renaming> {
    let ident = Ident::new(text(alloc, "x")?);
    Some(Renaming { ident })
}

impl Row for Renamed {
    fn play(&self, alloc: Global) -> Played {
        play_made(alloc, name_to_change(alloc))
    }
}

#[test]
fn modules_are_added(rt: HostRuntime) -> Result<(), Fail> {
    assert!(rt; is_right(rt.alloc(), &Added));
    Ok(())
}

#[test]
fn resolvers_are_mounted(rt: HostRuntime) -> Result<(), Fail> {
    assert!(rt; is_right(rt.alloc(), &Mounted::Under));
    Ok(())
}

#[test]
fn fallbacks_are_mounted(rt: HostRuntime) -> Result<(), Fail> {
    assert!(rt; is_right(rt.alloc(), &Mounted::Fallback));
    Ok(())
}

#[test]
fn names_are_renamed(rt: HostRuntime) -> Result<(), Fail> {
    assert!(rt; is_right(rt.alloc(), &Renamed));
    Ok(())
}
