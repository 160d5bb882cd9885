//! Recognizes the paths that the server serves.
ghost use Rattle.std.specs.Prelude.{◌≡◌, IfOk, IsUtf8, option_map};
ghost use Rattle.std.specs.Option.{ForSome};
ghost use Rattle.matchit.specs.Params.{AllText, named};
ghost use Rattle.http_requests.specs.RouterRows.{built, forms, shown, taken};
ghost use Rattle.http_requests.specs.Routes.{method_of, route_in};

use http_messages::Method;
use matchit::{InsertError, Params, Router};
use std::alloc::{AllocError, Global};
use std::str::from_utf8;

/// The parts of a path that the server serves.
#[derive(Clone, Copy)]
pub(crate) enum Route<'a> {
    /// A request in JSON, with its client and request number.
    Job { client: &'a [u8], number: &'a [u8] },
    /// The import of a batch file.
    Import(ImportPath<'a>),
    /// The account of a batch.
    Batch(&'a [u8]),
    /// The report of a batch.
    Report(&'a [u8]),
    /// The account of a product's blanks.
    Blanks(&'a [u8]),
}

/// The parts of the path of an import: its client and request number, and the names of the batch
/// and its product.
#[derive(Clone, Copy)]
pub(crate) struct ImportPath<'a> {
    pub(crate) client: &'a [u8],
    pub(crate) number: &'a [u8],
    pub(crate) batch: &'a [u8],
    pub(crate) product: &'a [u8],
}

// The forms of paths that the server serves.
#[derive(Clone, Copy)]
enum Form {
    Job,
    Import,
    Batch,
    Report,
    Blanks,
}

impl Route<'_> {
    /// Returns the only method that the path allows.
    pub fn method(&self) -> Method
        ensures { result ≡ method_of (shown self.now) }
    {
        match self {
            Route::Job { .. } | Route::Import(_) => Method::Post,
            Route::Batch(_) | Route::Report(_) | Route::Blanks(_) => Method::Get,
        }
    }
}

/// The router. It is built for the first message and then shared by all messages.
#[derive(Drop)]
pub struct Routes {
    router: Option<Router<Form>>,
    ghost built: { ForSome router (λ router. router ≡ forms) },
}

impl Routes {
    /// Creates the value without a router. Allocates nothing.
    pub fn new() -> Routes {
        Routes { router: None }
    }

    /// Returns the route of the path `target`, or `None` if the server doesn't serve it.
    ///
    /// # Errors
    ///
    /// Returns `AllocError` if an allocation fails.
    pub(crate) fn find<'a>(
        &mut self,
        alloc: Global,
        target: &'a [u8],
    ) -> Result<Option<Route<'a>>, AllocError>
        ensures { IfOk result (λ route. option_map shown route ≡ route_in target.now) }
    {
        let Ok(path) = from_utf8(target) else {
            return Ok(None);
        };
        let router = match self.router.take() {
            Some(router) => router,
            None => router(alloc).map_err(|_| AllocError)?,
        };
        let route = route_at(&router, path);
        self.router = Some(router);
        Ok(route)
    }
}

// Returns the route of `path`, with the router.
fn route_at<'a>(router: &Router<Form>, path: &'a str) -> Option<Route<'a>>
    requires forms { router.now ≡ forms }
    requires text { IsUtf8 path.now }
    ensures { option_map shown result ≡ route_in path.now }
{
    match router.at(path) {
        Ok(found) => route_by(*found.value, &found.params),
        Err(_) => None,
    }
}

// Builds the router, which has a pattern for each form of path.
fn router(alloc: Global) -> Result<Router<Form>, InsertError>
    ensures { IfOk result (λ router. router ≡ forms) }
{
    let mut router = Router::new(alloc);
    router.insert("/c/{client}/{number}", Form::Job)?;
    router.insert("/c/{client}/{number}/batch/{batch}/{product}", Form::Import)?;
    router.insert("/batch/{batch}", Form::Batch)?;
    router.insert("/batch/{batch}/report", Form::Report)?;
    router.insert("/blanks/{product}", Form::Blanks)?;
    Ok(router)
}

// Returns the route of this form whose parts are `params`.
fn route_by<'a>(form: Form, params: &Params<'_, 'a>) -> Option<Route<'a>>
    ensures { AllText (taken params.now) → option_map shown result ≡ built form (taken params.now) }
{
    match form {
        Form::Job => Some(Route::Job {
            client: part(params, "client")?,
            number: part(params, "number")?,
        }),
        Form::Import => Some(Route::Import(ImportPath {
            client: part(params, "client")?,
            number: part(params, "number")?,
            batch: part(params, "batch")?,
            product: part(params, "product")?,
        })),
        Form::Batch => Some(Route::Batch(part(params, "batch")?)),
        Form::Report => Some(Route::Report(part(params, "batch")?)),
        Form::Blanks => Some(Route::Blanks(part(params, "product")?)),
    }
}

// Returns the value of the parameter `name`.
fn part<'a>(params: &Params<'_, 'a>, name: &str) -> Option<&'a [u8]>
    ensures { AllText (taken params.now)
        → option_map (λ part. part.now) result ≡ named name.now (taken params.now) }
{
    Some(params.get(name)?.as_bytes())
}
