//! Where nodes are in a tree, and which rights rules on them may have.

ghost use Rattle.std.specs.Prelude.{◌≡◌, ◌<◌, ◌-◌, ◌^◌, ◌++◌, ◌==◌, ◌∷◌, [], ℕ, false, true, IfOk, IfSome, OnOk, None};
ghost use Rattle.std.specs.Prelude.{Some, length, option_and_then, slice_get, string_bytes};
ghost use Rattle.std.specs.List.{list_any};
ghost use Rattle.std.specs.Option.{option_map_or};
ghost use Rattle.ll_rights.specs.Kind.{is_dir};
ghost use Rattle.ll_rights.specs.Map.{has};
ghost use Rattle.ll_path.specs.Path.{path_of_text, path_refusals, path_text};
ghost use Rattle.ll_path.specs.Word.{IsWord};
ghost use Rattle.ll_seq.specs.State.{Name, State, child, kind_of, names_in};
ghost use Rattle.ll_seq.specs.Tree.{inode_of, named};
ghost use Rattle.ll_learn.specs.Sites.{AreAll, AreSites, HasBelow, HasSite, IsLonger, IsReached, IsSite, IsSpelt};
ghost use Rattle.ll_learn.specs.Sites.{may_grant};

use ll_path::{Name, Path, Target, Word};
use ll_plain::Plain;
use ll_rights::Access;
use ll_seq::{Call, Listing, ROOT, Reply};
use std::alloc::{AllocError, Global};

/// A node with a name.
#[derive(Drop)]
pub struct Site {
    pub inode: u64,
    /// A path that leads to it.
    pub path: Path,
    /// The rights that a rule on it may have.
    pub may: Access,
}

// Returns the inode of the name in the directory found so far.
fn below(tree: &Plain, end: Option<u64>, name: &str) -> Option<u64>
    ensures { result ≡ option_and_then (λ d. child tree.now d name.now) end }
{
    match end {
        None => None,
        Some(directory) => tree.child(directory, name),
    }
}

/// Returns the node that the path leads to.
pub(crate) fn end_of(tree: &Plain, path: &Path) -> Option<u64>
    ensures { result ≡ named tree.now path.now }
{
    let mut end = Some(ROOT);
    for name in path.names() {
        end = below(tree, end, name);
    }
    end
}

// Reports whether the inode is a directory's.
fn is_dir(tree: &Plain, inode: u64) -> bool
    ensures { result ≡ option_map_or is_dir (kind_of tree.now inode) false }
{
    match tree.kind(inode) {
        Some(kind) => kind.is_dir(),
        None => false,
    }
}

// Returns which of these rights a rule on the inode may have.
fn may_grant(tree: &Plain, all: Access, inode: u64) -> Access
    ensures { result.0 ≡ may_grant tree.now all.0 inode }
{
    if inode == ROOT {
        return all;
    }
    match tree.kind(inode) {
        None => Access(0),
        Some(kind) => Access(all.0 & kind.relevant().0),
    }
}

impl Site {
    // Returns the site that the path leads to, where rules may have some of these rights. None if it leads to no node.
    fn of_path(tree: &Plain, all: Access, path: Path) -> Option<Site>
        requires { IsSpelt path }
        ensures site { IfSome result (IsSite tree.now all.0) }
        ensures path { IfSome result (λ site. site.path ≡ path) }
        ensures none { result ≡ None → named tree.now path ≡ None }
    {
        let inode = end_of(tree, &path)?;
        let may = may_grant(tree, all, inode);
        Some(Site { inode, path, may })
    }
}

// Returns the path that the text spells, if any.
fn path_of(text: String) -> Option<Path>
    ensures some { IfSome result (λ path. path ≡ path_of_text (string_bytes text)) }
    ensures spelt { IfSome result IsSpelt }
    ensures none { result ≡ None → IsWord (string_bytes text) → path_refusals (string_bytes text) ≡ [] → ⊥ }
{
    match Word::new(text) {
        Ok(word) => match Path::parse(word) {
            Ok(path) => Some(path),
            Err(_) => None,
        },
        Err(_) => None,
    }
}

// Returns the root's path.
fn root_path(alloc: Global) -> Result<Path, AllocError>
    ensures { IfOk result (λ path. path ≡ []) }
{
    match path_of(String::from_str(alloc, "/")?) {
        Some(path) => Ok(path),
        None => unreachable!(),
    }
}

/// Returns a copy of the path. Errors: memory ran out.
pub(crate) fn copy_of(alloc: Global, path: &Path) -> Result<Path, AllocError>
    ensures { IfOk result (λ copy. copy ≡ path.now) }
{
    match path_of(String::from_str(alloc, path.as_str())?) {
        Some(copy) => Ok(copy),
        None => unreachable!(),
    }
}

// Returns the text of the path with one more name.
fn text_below(alloc: Global, path: &Path, name: &Name) -> Result<String, AllocError>
    ensures text { IfOk result (λ text. string_bytes text ≡ path_text (path.now ++ name.now ∷ [])) }
    ensures path { IfOk result (λ text. path_of_text (string_bytes text) ≡ path.now ++ name.now ∷ []) }
{
    let mut text = String::from_str(alloc, path.as_str())?;
    if !path.is_root() {
        text.push_str("/")?;
    }
    text.push_str(name.as_str())?;
    Ok(text)
}

// Returns the path with one more name. None if no word spells it.
fn path_below(alloc: Global, path: &Path, name: &Name) -> Result<Option<Path>, AllocError>
    ensures some { IfOk result (λ found. IfSome found (λ below. below ≡ path.now ++ name.now ∷ [])) }
    ensures spelt { IfOk result (λ found. IfSome found IsSpelt) }
    ensures none { IfOk result (λ found. found ≡ None → IsSpelt (path.now ++ name.now ∷ []) → ⊥) }
{
    Ok(path_of(text_below(alloc, path, name)?))
}

// Returns the names in the directory, which the client may list.
fn names_in(
    alloc: Global,
    tree: &mut Plain,
    client: u64,
    path: &Path,
) -> Result<Listing, AllocError>
    requires caller { has tree.old.clients client ≡ true }
    requires next { tree.old.next < 2 ^ 64 - 1 }
    ensures same { OnOk result (tree.new ≡ tree.old) }
    ensures names { IfOk result (λ names. names ≡ names_in tree.old (inode_of tree.old path.now)) }
{
    let call = Call::ReadDir(Target::read(Word::from_text(alloc, path.as_str())?));
    let reply = tree.apply(client, &call, client);
    drop(call);
    match reply {
        Reply::Listed(names) => Ok(names),
        other => {
            drop(other);
            Err(AllocError)
        }
    }
}

// Appends the site.
fn push_site(rows: &mut Vec<Site>, site: Site) -> Result<(), AllocError>
    ensures { OnOk result (rows.new.items ≡ rows.old.items ++ site ∷ []) }
{
    match rows.push(site) {
        Ok(()) => Ok(()),
        Err(refused) => {
            drop(refused);
            Err(AllocError)
        }
    }
}

/// The nodes of a tree that have names, from the root down.
#[derive(Drop)]
pub struct Sites {
    pub rows: Vec<Site>,
}

impl Sites {
    ghost use Rattle.ll_learn.specs.declared.site.Site as sites_of;

    // Returns only the root.
    fn of_root(alloc: Global, all: Access) -> Result<Sites, AllocError>
        ensures { IfOk result (λ sites. (s : State) → AreSites s all.0 sites) }
    {
        let root = Site {
            inode: ROOT,
            path: root_path(alloc)?,
            may: all,
        };
        Ok(Sites {
            rows: vec![in alloc; root]?,
        })
    }

    // Reports whether there is a site of the inode.
    fn has(&self, inode: u64) -> bool
        ensures { result ≡ list_any (λ site. site.inode == inode) self.now.rows.items }
    {
        self.rows.iter().any(|site| site.inode == inode)
    }

    // Adds the node that the path leads to, unless it is there.
    fn add(&mut self, tree: &Plain, all: Access, path: Path) -> Result<(), AllocError>
        requires spelt { IsSpelt path }
        requires sites { AreSites tree.now all.0 self.old }
        ensures sites { OnOk result (AreSites tree.now all.0 self.new) }
        ensures more { OnOk result (IsLonger self.old self.new) }
        ensures there { OnOk result ((inode : ℕ) → named tree.now path ≡ Some inode → HasSite self.new inode) }
    {
        let Some(site) = Site::of_path(tree, all, path) else {
            return Ok(());
        };
        if self.has(site.inode) {
            return Ok(());
        }
        push_site(&mut self.rows, site)
    }

    // Adds the node with this name directly below the path, unless no word spells its path.
    fn add_name(
        &mut self,
        alloc: Global,
        tree: &Plain,
        all: Access,
        above: &Path,
        name: &Name,
    ) -> Result<(), AllocError>
        requires { AreSites tree.now all.0 self.old }
        ensures sites { OnOk result (AreSites tree.now all.0 self.new) }
        ensures more { OnOk result (IsLonger self.old self.new) }
        ensures there { OnOk result ((inode : ℕ) → IsSpelt (above.now ++ name.now ∷ [])
            → named tree.now (above.now ++ name.now ∷ []) ≡ Some inode → HasSite self.new inode) }
    {
        match path_below(alloc, above, name)? {
            Some(path) => self.add(tree, all, path),
            None => Ok(()),
        }
    }

    // Adds the nodes with each of these names.
    fn add_names(
        &mut self,
        alloc: Global,
        tree: &Plain,
        all: Access,
        above: &Path,
        names: &[Name],
    ) -> Result<(), AllocError>
        requires { AreSites tree.now all.0 self.old }
        ensures sites { OnOk result (AreSites tree.now all.0 self.new) }
        ensures more { OnOk result (IsLonger self.old self.new) }
        ensures there { OnOk result ((index : ℕ) (name : Name) (inode : ℕ) → slice_get names.now index ≡ Some name
            → IsSpelt (above.now ++ name ∷ []) → named tree.now (above.now ++ name ∷ []) ≡ Some inode
            → HasSite self.new inode) }
    {
        for name in names {
            self.add_name(alloc, tree, all, above, name)?;
        }
        Ok(())
    }

    // Adds what is directly below the node with this index.
    fn add_below(
        &mut self,
        alloc: Global,
        tree: &mut Plain,
        client: u64,
        all: Access,
        index: usize,
    ) -> Result<(), AllocError>
        requires caller { has tree.old.clients client ≡ true }
        requires next { tree.old.next < 2 ^ 64 - 1 }
        requires index { index < length self.old.rows.items }
        requires sites { AreSites tree.old all.0 self.old }
        ensures same { OnOk result (tree.new ≡ tree.old) }
        ensures sites { OnOk result (AreSites tree.old all.0 self.new) }
        ensures more { OnOk result (IsLonger self.old self.new) }
        ensures below { OnOk result (IsReached tree.old → (site : sites_of.Site)
            → slice_get self.old.rows.items index ≡ Some site → HasBelow tree.old self.new site) }
    {
        let directory = &self.rows[index];
        if !is_dir(tree, directory.inode) {
            return Ok(());
        }
        let above = copy_of(alloc, &directory.path)?;
        let names = names_in(alloc, tree, client, &directory.path)?;
        self.add_names(alloc, tree, all, &above, names.names())
    }

    /// Returns the nodes that command lines can name, where rules may have some of these rights. Lists the directories
    /// as the client, which has no layer. Errors: memory ran out.
    pub fn of_tree(
        alloc: Global,
        tree: &mut Plain,
        client: u64,
        all: Access,
    ) -> Result<Sites, AllocError>
        requires caller { has tree.old.clients client ≡ true }
        requires next { tree.old.next < 2 ^ 64 - 1 }
        ensures same { OnOk result (tree.new ≡ tree.old) }
        ensures sites { IfOk result (AreSites tree.old all.0) }
        ensures all { IfOk result (λ sites. IsReached tree.old → AreAll tree.old sites) }
    {
        let mut sites = Sites::of_root(alloc, all)?;
        // What is below a row is appended after it.
        for index in 0..usize::MAX {
            if index >= sites.rows.len() {
                return Ok(sites);
            }
            sites.add_below(alloc, tree, client, all, index)?;
        }
        Ok(sites)
    }
}
